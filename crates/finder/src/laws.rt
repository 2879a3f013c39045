// The theory of a session's table: each function's contract is a theorem, and its proof is what the function is for.
ghost use Rattle.finder.specs.Clauses.{OpeningTakes, Extending};
ghost use Rattle.finder.specs.Claims.{BeginsSound, OpeningKeeps, RecordingKeeps, NeverForeign, AwaitedInTable, ForbidsOnly, ConflictExplained, NewInFull, FindingsStand, ModelsStand, NoneStands, NeverStands, ShallowStands};

// An opening of m constructors takes (m + 1) + 3m(m - 1)/2 entries.
pub fn opening_takes_stands() -> u8
    ensures { OpeningTakes }
{
    0
}

// What a chooser's calls do, one after another, adds up to the variables and clauses that they gave it.
pub fn extending_stands() -> u8
    ensures { Extending }
{
    0
}

// The invariant stands at the start.
pub fn begins_sound_stands() -> u8
    ensures { BeginsSound }
{
    0
}

// Opening an unknown keeps the invariant.
pub fn opening_keeps_stands() -> u8
    ensures { OpeningKeeps }
{
    0
}

// Recording a conflict keeps the invariant.
pub fn recording_keeps_stands() -> u8
    ensures { RecordingKeeps }
{
    0
}

// A way that the chooser allows gives every opened unknown exactly one case.
pub fn never_foreign_stands() -> u8
    ensures { NeverForeign }
{
    0
}

// What a goal waits on is in the table and not opened.
pub fn awaited_in_table_stands() -> u8
    ensures { AwaitedInTable }
{
    0
}

// A conflict forbids only assignments under which its goal does not come to true.
pub fn forbids_only_stands() -> u8
    ensures { ForbidsOnly }
{
    0
}

// A goal judged false under a way gives a conflict of the table.
pub fn conflict_explained_stands() -> u8
    ensures { ConflictExplained }
{
    0
}

// A new conflict forbids a full set that the record still allowed.
pub fn new_in_full_stands() -> u8
    ensures { NewInFull }
{
    0
}

// A finding says what the goals in force are judged.
pub fn findings_stand() -> u8
    ensures { FindingsStand }
{
    0
}

// From a way to assignments: the model of a way under which every goal in force is true can be filled within the depth, and
// every filling makes the goals in force come to true.
pub fn models_stand() -> u8
    ensures { ModelsStand }
{
    0
}

// From an assignment to a way: where the chooser allows no way that meets what is asked, no assignment within the depth makes
// every goal in force come to true.
pub fn none_stands() -> u8
    ensures { NoneStands }
{
    0
}

// And where it allows none that meets the switches alone, no assignment does.
pub fn never_stands() -> u8
    ensures { NeverStands }
{
    0
}

// Below the least depth of some unknown's type there is no assignment.
pub fn shallow_stands() -> u8
    ensures { ShallowStands }
{
    0
}
