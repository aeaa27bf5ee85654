// The public entries: a record brought to a reader schema, and the current finish of each sail. Those that crate hulmbax_c exports to C are here.
#![tactic(auto)]

ghost use Rattle.std.specs.Prelude.{◌≡◌, ◌-◌, length};
ghost use Rattle.frame.specs.ValueFrame.{decode_value};
ghost use Rattle.frame.specs.SchemaFrame.{decode_schema};
ghost use Rattle.frame.specs.Sound.{checked_value};
ghost use Rattle.base.specs.Refusal.{outcome_of};
ghost use Rattle.buffer.specs.After.{buffer_after, code_for};
ghost use Rattle.instants.specs.Frames.{civil_for, date_for, sum_for, held_for, held_code};
ghost use Rattle.hulmbax.specs.Answer.{answer, answer_for, checked_schema, record_answer, workspace_after};
ghost use Rattle.hulmbax.specs.Entry.{Coded, PassedSchema, PassedValue, code_of, resolved_of, stop_of, used_for};
ghost use Rattle.hulmbax.specs.Names.{names};

use base::refusal::Refusal;
use frame::Verdict;
use walk::Walk;

// Whether the schema passes its checks: else 2, 3 or 4.
fn check_schema(schema: &[u8], work: &mut [u8]) -> Result<(), Refusal>
    ensures { stop_of (outcome_of result) ≡ stop_of (checked_schema (decode_schema schema.now)) }
{
    match schema::schema_frame(schema) {
        Verdict::NoFrame => Err(Refusal::SchemaNoFrame),
        Verdict::Unsound => Err(Refusal::SchemaUnsound),
        Verdict::Sound => {
            if defaults::defaults_short(schema, work, 16) {
                Ok(())
            } else {
                Err(Refusal::DefaultTooLong)
            }
        }
    }
}

// Whether the record passes its check: else 5.
fn check_record(record: &[u8]) -> Result<(), Refusal>
    ensures { stop_of (outcome_of result) ≡ stop_of (checked_value (decode_value «record».now)) }
{
    match value::value_frame(record) {
        Verdict::NoFrame => Err(Refusal::RecordNoFrame),
        Verdict::Unsound => Err(Refusal::RecordNoFrame),
        Verdict::Sound => Ok(()),
    }
}

// Resolves frames that passed their checks into the work slice, and hands over a result that fits.
fn hand_over(
    schema: &[u8],
    record: &[u8],
    res: &mut [u8],
    work: &mut [u8],
) -> Result<usize, Refusal>
    requires { PassedSchema schema.now × PassedValue «record».now × (length work.old ≡ 65536) }
    ensures answer { (s : PassedSchema schema.now) → outcome_of result ≡ resolved_of (record_answer s.tree «record».now (length res.old)) }
    ensures contents { (s : PassedSchema schema.now) → res.new ≡ buffer_after (record_answer s.tree «record».now (length res.old)) res.old }
{
    let whole = Walk {
        schema: 16,
        value: 16,
    };
    let n = walk::resolve_node(whole, schema, record, work)?;
    if 65535 < n {
        return Err(Refusal::ResultTooLong);
    }
    if res.len() < n {
        return Err(Refusal::ResultTooLong);
    }
    buffer::copy(res, &work[..n]);
    Ok(n)
}

// One record under a schema that passed its checks. The work slice is 65,536 bytes long; what it holds plays no part, and nothing is
// said of what it holds afterwards, so a caller may go on to the next record with it.
fn one_record(
    schema: &[u8],
    record: &[u8],
    res: &mut [u8],
    work: &mut [u8],
) -> Result<usize, Refusal>
    requires { PassedSchema schema.now × (length work.old ≡ 65536) }
    ensures answer { (s : PassedSchema schema.now) → outcome_of result ≡ resolved_of (record_answer s.tree «record».now (length res.old)) }
    ensures contents { (s : PassedSchema schema.now) → res.new ≡ buffer_after (record_answer s.tree «record».now (length res.old)) res.old }
{
    check_record(record)?;
    hand_over(schema, record, res, work)
}

// All but the workspace, of which the first 65,536 bytes are lent: what stops the schema, or what the record gets under it.
fn resolve_in(
    schema: &[u8],
    record: &[u8],
    res: &mut [u8],
    work: &mut [u8],
) -> Result<usize, Refusal>
    requires { length work.old ≡ 65536 }
    ensures answer { outcome_of result ≡ resolved_of (answer_for schema.now «record».now (length res.old)) }
    ensures contents { res.new ≡ buffer_after (answer_for schema.now «record».now (length res.old)) res.old }
{
    check_schema(schema, work)?;
    one_record(schema, record, res, work)
}

// How much of the workspace an answer has used, at a guess: its result, and what trials and defaults leave at the front.
fn used(told: Result<usize, Refusal>) -> usize
    ensures { result ≡ used_for (outcome_of told) }
{
    match told {
        Ok(len) => len.max(4096),
        Err(_) => 4096,
    }
}

// The record's frame brought to the reader schema's: the result's length, or what stops the record.
pub fn resolve(
    schema: &[u8],
    record: &[u8],
    res: &mut [u8],
    workspace: &mut [u8],
) -> Result<usize, Refusal>
    ensures answer { outcome_of result ≡ resolved_of (answer schema.now «record».now (length res.old) (length workspace.old)) }
    ensures contents { res.new ≡ buffer_after (answer schema.now «record».now (length res.old) (length workspace.old)) res.old }
    ensures cleared { workspace.new ≡ workspace_after (answer schema.now «record».now (length res.old) (length workspace.old)) workspace.old }
{
    if workspace.len() < 65536 {
        return Err(Refusal::WorkspaceTooShort);
    }
    let told = resolve_in(schema, record, res, &mut workspace[..65536]);
    buffer::clear(&mut workspace[..65536], used(told));
    told
}

// The answer as one signed number for C: the length of an accepted result, or the refusal's number negated.
fn code(answer: Result<usize, Refusal>) -> i32
    requires { Coded (outcome_of answer) }
    ensures { result ≡ code_of (outcome_of answer) }
{
    match answer {
        Ok(len) => len as i32,
        Err(e) => 0 - (e.number() as i32),
    }
}

// The same entry for C and Rust: what `resolve` does, and its answer as one number.
pub fn hulmbax_resolve(schema: &[u8], record: &[u8], res: &mut [u8], workspace: &mut [u8]) -> i32
    ensures answer { result ≡ code_of (resolved_of (answer schema.now «record».now (length res.old) (length workspace.old))) }
    ensures contents { res.new ≡ buffer_after (answer schema.now «record».now (length res.old) (length workspace.old)) res.old }
    ensures cleared { workspace.new ≡ workspace_after (answer schema.now «record».now (length res.old) (length workspace.old)) workspace.old }
{
    code(resolve(schema, record, res, workspace))
}

// ---- a corrected finish supersedes the first one (docs/RULES.md, "Corrected finishes")

// The place of the current frame of each sail, one byte each, in the order in which sails first appear. Frame i of the input goes from
// the end before it, 0 at first, to `ends[i]`.
pub fn current(
    input: &[u8],
    ends: &[usize],
    res: &mut [u8],
    workspace: &mut [u8],
) -> Result<usize, Refusal>
    ensures answer { outcome_of result ≡ resolved_of (names input.now ends.now (length res.old) (length workspace.old)) }
    ensures contents { res.new ≡ buffer_after (names input.now ends.now (length res.old) (length workspace.old)) res.old }
    ensures cleared { workspace.new ≡ workspace_after (names input.now ends.now (length res.old) (length workspace.old)) workspace.old }
{
    if workspace.len() < 65536 {
        return Err(Refusal::WorkspaceTooShort);
    }
    let named = corrections::current(input, ends, res);
    buffer::clear(&mut workspace[..65536], 0);
    named
}

// The same entry for C and Rust: what `current` does, and its answer as one number.
pub fn hulmbax_current(input: &[u8], ends: &[usize], res: &mut [u8], workspace: &mut [u8]) -> i32
    ensures answer { result ≡ code_of (resolved_of (names input.now ends.now (length res.old) (length workspace.old))) }
    ensures contents { res.new ≡ buffer_after (names input.now ends.now (length res.old) (length workspace.old)) res.old }
    ensures cleared { workspace.new ≡ workspace_after (names input.now ends.now (length res.old) (length workspace.old)) workspace.old }
{
    code(current(input, ends, res, workspace))
}

// ---- the calendar's entries for C (docs/RULES.md, "Dates and instants"); `calendar` has them by value

// The year, month and day of a Date, in the first three slots: 3, or 18 where there are fewer.
pub fn hulmbax_civil(date: i32, slots: &mut [i32]) -> i32
    ensures answer { result ≡ code_for (civil_for date (length slots.old)) }
    ensures contents { slots.new ≡ buffer_after (civil_for date (length slots.old)) slots.old }
{
    instants::civil(date, slots)
}

// The Date of a day, in the first slot: 1, or 27, then 18.
pub fn hulmbax_date(year: i32, month: i32, day: i32, date: &mut [i32]) -> i32
    ensures answer { result ≡ code_for (date_for year month day (length date.old)) }
    ensures contents { date.new ≡ buffer_after (date_for year month day (length date.old)) date.old }
{
    instants::date(year, month, day, date)
}

// A Duration added to an instant, both frames: the length of the sum's frame, or 5, 6, 26, 27, then 18.
pub fn hulmbax_add(instant: &[u8], duration: &[u8], res: &mut [u8]) -> i32
    ensures answer { result ≡ code_for (sum_for instant.now duration.now (length res.old)) }
    ensures contents { res.new ≡ buffer_after (sum_for instant.now duration.now (length res.old)) res.old }
{
    instants::add(instant, duration, res)
}

// Whether the window from opening to before closing holds an instant, all frames: 1 or 0, or 5, then 6.
pub fn hulmbax_holds(opening: &[u8], closing: &[u8], instant: &[u8]) -> i32
    ensures { result ≡ held_code (held_for opening.now closing.now instant.now) }
{
    instants::holds(opening, closing, instant)
}
