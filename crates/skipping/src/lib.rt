// Entries of a table by block number that tell no place, passed over (requests #106 and #113).
#![tactic(auto)]

ghost use Rattle.std.specs.Prelude.{◌≡◌, true, ◌≤◌, length};
ghost use Rattle.model.specs.Mounted.{least_places};
ghost use Rattle.skipping.specs.Passed.{AllNone, Passed};

// The entries of a table, and from where on fewer than eight are left.
const ENTRIES: usize = 65536;

const LAST_EIGHT: usize = ENTRIES - 7;

// Whether eight entries tell no place. They are joined, so that they are compared once.
fn none_of(group: &[u32]) -> bool
    requires { length group.now ≡ 8 }
    ensures { result ≡ true → AllNone group.now }
{
    (group[0] | group[1] | group[2] | group[3] | group[4] | group[5] | group[6] | group[7]) == 0
}

// Passes over entries of 0, eight at a time as far as it can: most block numbers are not stored.
pub fn pass_empty(places: &[u32], from: usize) -> usize
    requires { (least_places ≤ length places.now) × (from ≤ least_places) }
    ensures { Passed places.now from result }
{
    // Kept: steps of eight, and where they stop is the answer, which `step_by` does not tell once it has run through.
    let mut block = from;
    while block < LAST_EIGHT {
        let end = block + 8;
        if !none_of(&places[block..end]) {
            return block;
        }
        block = end;
    }
    block
}
