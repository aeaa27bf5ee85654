// Names the current finish of each sail, of up to 256 frames.
#![tactic(auto)]

ghost use Rattle.std.specs.Prelude.{◌≡◌, ◌+◌, ◌≤◌, ◌<◌, length, take};
ghost use Rattle.base.specs.Refusal.{outcome_of};
ghost use Rattle.text.specs.Text;
ghost use Rattle.lists.specs.Frames.{frame_at, frames};
ghost use Rattle.finishes.specs.Finish.{finish_of};
ghost use Rattle.finishes.specs.Parts.{Says};
ghost use Rattle.current.specs.Current.{beats, listed};
ghost use Rattle.current.specs.Entering.{entered_by, place_of};
ghost use Rattle.buffer.specs.After.{buffer_after};
ghost use Rattle.corrections.specs.Named.{answer_of, finishes, names_for, places};
ghost use Rattle.corrections.specs.Tables.{Below, Filled, HasRow, Placed, Told, chosen, row, rows, sail_at, sails_at};

use base::refusal::Refusal;
use finishes::Entry;

// The finish of the frame from one end to the next; its sail is placed in the input.
fn finish_at(input: &[u8], from: usize, to: usize) -> Option<Entry>
    ensures { Says (finish_of (frame_at input.now from to)) input.now result }
{
    let finish = finishes::finish(lists::frame_at(input, from, to))?;
    Some(Entry {
        from: from + finish.from,
        to: from + finish.to,
        ..finish
    })
}

// Reads all frames into a table, in which row k is of frame k, and notes the hash of each sail beside it. False where a frame is
// refused; table and hashes are the caller's.
fn read_all(
    input: &[u8],
    ends: &[usize],
    table: &mut [Entry; 256],
    hashes: &mut [usize; 256],
) -> bool
    requires { length ends.now ≤ 256 }
    ensures { Told result (finishes 0 (frames input.now ends.now)) input.now table.new hashes.new (length ends.now) × (length table.new ≡ 256) × (length hashes.new ≡ 256) }
{
    let mut from: usize = 0;
    for i in 0..ends.len() {
        let to = ends[i];
        let Some(finish) = finish_at(input, from, to) else {
            return false;
        };
        table[i] = finish;
        hashes[i] = text::hash(&input[finish.from..finish.to]);
        from = to;
    }
    true
}

// Whether the sails of two frames are the same. Those of other hashes differ, so long ones are seldom compared.
fn same_sail(input: &[u8], table: &[Entry], hashes: &[usize], i: usize, j: usize) -> bool
    requires { HasRow input.now table.now hashes.now i × HasRow input.now table.now hashes.now j }
    ensures { result ≡ Text.same (sail_at input.now table.now i) (sail_at input.now table.now j) }
{
    if hashes[i] != hashes[j] {
        return false;
    }
    let a = table[i];
    let b = table[j];
    text::same(&input[a.from..a.to], &input[b.from..b.to])
}

// Where the sail of frame i stands among the frames that are listed; their number where it is new.
fn place_of(input: &[u8], table: &[Entry], hashes: &[usize], named: &[u8], i: usize) -> usize
    requires { HasRow input.now table.now hashes.now i × Placed input.now table.now hashes.now named.now }
    ensures { result ≡ place_of (sails_at input.now table.now named.now) (sail_at input.now table.now i) }
{
    for k in 0..named.len() {
        if same_sail(input, table, hashes, i, named[k] as usize) {
            return k;
        }
    }
    named.len()
}

// Whether a finish takes over from the one of its sail that stands before it, by their seqs.
fn takes_over(later: u64, earlier: u64) -> bool
    ensures { result ≡ beats later earlier }
{
    earlier <= later
}

// Enters frame i behind the `count` frames that are listed: it takes over from the one of its sail, stays behind it, or is a new one.
fn enter(
    input: &[u8],
    table: &[Entry],
    hashes: &[usize],
    i: usize,
    out: &mut [u8],
    count: usize,
) -> usize
    requires { Filled input.now table.now hashes.now (i + 1) × (i < 256) × (count ≤ i) × (length out.old ≡ 256) × Below i (take count out.old) }
    ensures { (result ≤ count + 1) × (length out.new ≡ 256) × Below (i + 1) (take result out.new) × (chosen input.now table.now (take result out.new) ≡ entered_by beats (chosen input.now table.now (take count out.old)) (row input.now table.now i)) }
{
    let k = place_of(input, table, hashes, &out[..count], i);
    if k == count {
        out[count] = i as u8;
        return count + 1;
    }
    let j = out[k] as usize;
    if takes_over(table[i].rank, table[j].rank) {
        out[k] = i as u8;
    }
    count
}

// Lists the current frames of n: the place of each, in the order in which sails first appear.
fn list(input: &[u8], table: &[Entry], hashes: &[usize], n: usize, out: &mut [u8]) -> usize
    requires { Filled input.now table.now hashes.now n × (n ≤ 256) × (length out.old ≡ 256) }
    ensures { (result ≤ n) × (length out.new ≡ 256) × (take result out.new ≡ places (listed (rows input.now table.now n))) }
{
    let mut count: usize = 0;
    for i in 0..n {
        count = enter(input, table, hashes, i, out, count);
    }
    count
}

// The places of the current frames, one byte for each sail, in the order in which sails first appear; or 23, 24, then 18.
pub fn current(input: &[u8], ends: &[usize], res: &mut [u8]) -> Result<usize, Refusal>
    ensures answer { outcome_of result ≡ answer_of (names_for input.now ends.now (length res.old)) }
    ensures contents { res.new ≡ buffer_after (names_for input.now ends.now (length res.old)) res.old }
{
    if 256 < ends.len() {
        return Err(Refusal::TooManyFrames);
    }
    let none = Entry {
        from: 0,
        to: 0,
        rank: 0,
    };
    let mut table = [none; 256];
    let mut hashes = [0usize; 256];
    if !read_all(input, ends, &mut table, &mut hashes) {
        return Err(Refusal::NoFinish);
    }
    let mut out = [0u8; 256];
    let n = list(input, &table, &hashes, ends.len(), &mut out);
    if res.len() < n {
        return Err(Refusal::ResultTooLong);
    }
    buffer::copy(res, &out[..n]);
    Ok(n)
}
