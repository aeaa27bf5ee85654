// The entries as C calls them, under the names that c/hulmbax.h declares: each is the function of `hulmbax` of that name, with its clauses.
#![tactic(auto)]

ghost use Rattle.std.specs.Prelude.{◌≡◌, length};
ghost use Rattle.buffer.specs.After.{buffer_after, code_for};
ghost use Rattle.instants.specs.Frames.{civil_for, date_for, sum_for, held_for, held_code};
ghost use Rattle.hulmbax.specs.Answer.{answer, workspace_after};
ghost use Rattle.hulmbax.specs.Entry.{code_of, resolved_of};
ghost use Rattle.hulmbax.specs.Names.{names};

// A record brought to a reader schema: what `hulmbax::resolve` does, and its answer as one number.
#[unsafe(no_mangle)]
pub extern "C" fn hulmbax_resolve(
    schema: &[u8],
    record: &[u8],
    res: &mut [u8],
    workspace: &mut [u8],
) -> i32
    ensures answer { result ≡ code_of (resolved_of (answer schema.now «record».now (length res.old) (length workspace.old))) }
    ensures contents { res.new ≡ buffer_after (answer schema.now «record».now (length res.old) (length workspace.old)) res.old }
    ensures cleared { workspace.new ≡ workspace_after (answer schema.now «record».now (length res.old) (length workspace.old)) workspace.old }
{
    hulmbax::hulmbax_resolve(schema, record, res, workspace)
}

// The current finish of each sail: what `hulmbax::current` does, and its answer as one number.
#[unsafe(no_mangle)]
pub extern "C" fn hulmbax_current(
    input: &[u8],
    ends: &[usize],
    res: &mut [u8],
    workspace: &mut [u8],
) -> i32
    ensures answer { result ≡ code_of (resolved_of (names input.now ends.now (length res.old) (length workspace.old))) }
    ensures contents { res.new ≡ buffer_after (names input.now ends.now (length res.old) (length workspace.old)) res.old }
    ensures cleared { workspace.new ≡ workspace_after (names input.now ends.now (length res.old) (length workspace.old)) workspace.old }
{
    hulmbax::hulmbax_current(input, ends, res, workspace)
}

// The year, month and day of a Date, in the first three slots: 3, or 18 where there are fewer.
#[unsafe(no_mangle)]
pub extern "C" fn hulmbax_civil(date: i32, slots: &mut [i32]) -> i32
    ensures answer { result ≡ code_for (civil_for date (length slots.old)) }
    ensures contents { slots.new ≡ buffer_after (civil_for date (length slots.old)) slots.old }
{
    hulmbax::hulmbax_civil(date, slots)
}

// The Date of a day, in the first slot: 1, or 27, then 18.
#[unsafe(no_mangle)]
pub extern "C" fn hulmbax_date(year: i32, month: i32, day: i32, date: &mut [i32]) -> i32
    ensures answer { result ≡ code_for (date_for year month day (length date.old)) }
    ensures contents { date.new ≡ buffer_after (date_for year month day (length date.old)) date.old }
{
    hulmbax::hulmbax_date(year, month, day, date)
}

// A Duration added to an instant, both frames: the length of the sum's frame, or 5, 6, 26, 27, then 18.
#[unsafe(no_mangle)]
pub extern "C" fn hulmbax_add(instant: &[u8], duration: &[u8], res: &mut [u8]) -> i32
    ensures answer { result ≡ code_for (sum_for instant.now duration.now (length res.old)) }
    ensures contents { res.new ≡ buffer_after (sum_for instant.now duration.now (length res.old)) res.old }
{
    hulmbax::hulmbax_add(instant, duration, res)
}

// Whether the window from opening to before closing holds an instant, all frames: 1 or 0, or 5, then 6.
#[unsafe(no_mangle)]
pub extern "C" fn hulmbax_holds(opening: &[u8], closing: &[u8], instant: &[u8]) -> i32
    ensures { result ≡ held_code (held_for opening.now closing.now instant.now) }
{
    hulmbax::hulmbax_holds(opening, closing, instant)
}
