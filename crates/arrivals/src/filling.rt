// The table of arrivals, filled by one walk over a behaviour.
// The walk has the table by reference: rows of 32 channels, in which the row of a process and outside has as what its
// channels come out of the commands passed so far.
ghost use Rattle.std.specs.Prelude.{◌≡◌, ◌≢◌, ℕ, ◌+◌, ◌*◌, ◌<◌, ◌≤◌, ◌⊎◌, Some, None};
ghost use Rattle.commands.specs.Stands.{BehaviourAt};
ghost use Rattle.commands.specs.Trees.{Behaviour};
ghost use Rattle.admission.specs.Conditions.{processes};
ghost use Rattle.arrivals.specs.Bytes.{channel_of};
ghost use Rattle.arrivals.specs.Climbing.{KeptAt};
ghost use Rattle.arrivals.specs.Filling.{in_row, past, KeepsBytes, RowWritten, RowsPast, Copied, Met, Filled, SameBefore, SameProcess, LastRepeated};

use commands::behaviour::BehaviourCommand;
use commands::command::read;
use commands::set::in_set;

// Where to, for what leaves the model: the column behind those of the 8 processes.
const OUTSIDE: usize = 8;

// The byte of the table that stands for no channel.
pub(crate) const NONE: u8 = 255;

// What comes out of a command that has one part, given what arrives below it, as bytes of the table.
fn past(command: BehaviourCommand, below: u8) -> u8
    requires { KeepsBytes command }
    ensures { channel_of result ≡ past command (channel_of below) }
{
    match command {
        BehaviourCommand::Hide(set) => { if in_set(set, below) { NONE } else { below } }
        BehaviourCommand::Rename(from, to) => { if below == from { to } else { below } }
        BehaviourCommand::Proc(_) | BehaviourCommand::Par(_) => below,
    }
}

// Each channel as itself.
fn write_own(table: &mut [u8; 2304], row: usize)
    requires { row < 72 }
    ensures { RowWritten table.old table.new row (λ c. Some c) }
{
    for c in 0..32 {
        table[row * 32 + c as usize] = c;
    }
}

// No channel.
fn write_none(table: &mut [u8; 2304], row: usize)
    requires { row < 72 }
    ensures { RowWritten table.old table.new row (λ c. None) }
{
    for c in 0..32 {
        table[row * 32 + c] = NONE;
    }
}

// What another row has.
fn copy_row(table: &mut [u8; 2304], from: usize, row: usize)
    requires from_within { from < 72 }
    requires within { row < 72 }
    requires other { from ≢ row }
    ensures { RowWritten table.old table.new row (in_row table.old from) }
{
    for c in 0..32 {
        table[row * 32 + c] = table[from * 32 + c];
    }
}

// What comes out of a command, where the row is what arrives below it.
fn pass_row(table: &mut [u8; 2304], row: usize, command: BehaviourCommand)
    requires within { row < 72 }
    requires bytes { KeepsBytes command }
    ensures { RowWritten table.old table.new row (λ c. past command (in_row table.old row c)) }
{
    for c in 0..32 {
        table[row * 32 + c] = past(command, table[row * 32 + c]);
    }
}

// The processes from `first` up to `end` pass a command.
fn pass_rows(table: &mut [u8; 2304], first: usize, end: usize, command: BehaviourCommand)
    requires ordered { first ≤ end }
    requires within { end ≤ 8 }
    requires bytes { KeepsBytes command }
    ensures { RowsPast table.old table.new first end command }
{
    for p in first..end {
        pass_row(table, p * 9 + OUTSIDE, command);
    }
}

// What process `p` has in column `source`, into its columns from `left` up to `right`.
fn copy_cells(table: &mut [u8; 2304], p: usize, left: usize, right: usize, source: usize)
    requires process { p < 8 }
    requires ordered { left ≤ right }
    requires within { right ≤ 8 }
    requires column { source < 9 }
    requires apart { (source < left) ⊎ (right ≤ source) }
    ensures { Copied table.old table.new p (p + 1) left right source }
{
    for q in left..right {
        copy_row(table, p * 9 + source, p * 9 + q);
    }
}

// The same for the processes from `first` up to `end`.
fn copy_columns(
    table: &mut [u8; 2304],
    first: usize,
    end: usize,
    left: usize,
    right: usize,
    source: usize,
)
    requires processes_ordered { first ≤ end }
    requires processes_within { end ≤ 8 }
    requires ordered { left ≤ right }
    requires within { right ≤ 8 }
    requires column { source < 9 }
    requires apart { (source < left) ⊎ (right ≤ source) }
    ensures { Copied table.old table.new first end left right source }
{
    for p in first..end {
        copy_cells(table, p, left, right, source);
    }
}

// The processes from `first` up to `middle` meet those from there up to `end`.
fn meet(table: &mut [u8; 2304], first: usize, middle: usize, end: usize)
    requires first_part { first ≤ middle }
    requires second_part { middle ≤ end }
    requires within { end ≤ 8 }
    ensures { Met table.old table.new first middle end }
{
    copy_columns(table, first, middle, middle, end, OUTSIDE);
    copy_columns(table, middle, end, first, middle, OUTSIDE);
}

// The arrivals of the behaviour at `at`, whose first process is number `first`, and the number of the first process
// behind it.
// File and place stay two parameters, as in the module `travel`.
pub(crate) fn walk(file: &[u8], at: usize, first: usize, table: &mut [u8; 2304]) -> usize
    requires { (n : ℕ) × (b : Behaviour) × KeptAt file.now at n b × (first + processes b ≤ 8) }
    ensures end { (b : Behaviour) → BehaviourAt file.now at b → result ≡ first + processes b }
    ensures filled { (b : Behaviour) → BehaviourAt file.now at b → Filled table.new first b }
    ensures before { SameBefore table.old table.new first }
{
    let Some(command) = read::<BehaviourCommand>(file, at) else {
        return unreachable();
    };
    match command {
        BehaviourCommand::Proc(_class) => {
            write_own(table, first * 9 + OUTSIDE);
            write_none(table, first * 9 + first);
            first + 1
        }
        BehaviourCommand::Par(second) => {
            let middle = walk(file, at + 3, first, table);
            let end = walk(file, second as usize, middle, table);
            meet(table, first, middle, end);
            end
        }
        BehaviourCommand::Hide(set) => {
            let end = walk(file, at + 5, first, table);
            pass_rows(table, first, end, BehaviourCommand::Hide(set));
            end
        }
        BehaviourCommand::Rename(from, to) => {
            let end = walk(file, at + 3, first, table);
            pass_rows(table, first, end, BehaviourCommand::Rename(from, to));
            end
        }
    }
}

// What is told of process `from` is told of process `p`.
fn copy_process(table: &mut [u8; 2304], from: usize, p: usize)
    requires from_within { from < 8 }
    requires within { p < 8 }
    requires other { from ≢ p }
    ensures { SameProcess table.old table.new from p }
{
    for q in 0..9 {
        copy_row(table, from * 9 + q, p * 9 + q);
    }
}

// A number past the last process counts as the last.
pub(crate) fn repeat_last(table: &mut [u8; 2304], count: usize)
    requires some { 0 < count }
    requires within { count ≤ 8 }
    ensures { LastRepeated table.old table.new count }
{
    copy_columns(table, 0, count, count, 8, count - 1);
    for p in count..8 {
        copy_process(table, count - 1, p);
    }
}
