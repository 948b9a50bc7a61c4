// All rows: a task leaves or enters the row of one CPU, or takes another place in it.
ghost use Rattle.std.specs.Prelude.{◌≡◌, ◌≤◌, ◌<◌, length, get_or};
ghost use Rattle.rules.specs.Lists.{In, delete};
ghost use Rattle.rules.specs.Machine.{task_places, highest_priority, queued, entry_key};
ghost use Rattle.rules.specs.Tables.{flat_of, row_counts};
ghost use Rattle.runqueue.specs.Row.{Reorderable};
ghost use Rattle.runqueue.specs.Table.{HoldsRows, Joinable, row_at, rows_with};

use super::row;

// The task leaves the row of this CPU.
pub fn dequeue(rows: &mut [u16], counts: &mut [u16], cpu: usize, task: u16)
    requires holds_rows { HoldsRows counts.old rows.old }
    requires cpu_in_bounds { cpu < length counts.old }
    requires stands { In task (row_at counts.old rows.old cpu) }
    ensures rows_are { let left = rows_with counts.old rows.old cpu (delete task (row_at counts.old rows.old cpu)) in
        rows.new ≡ flat_of left }
    ensures counts_are { let left = rows_with counts.old rows.old cpu (delete task (row_at counts.old rows.old cpu)) in
        counts.new ≡ row_counts left }
{
    let start = cpu * row::PLACES;
    let count = counts[cpu] as usize;
    row::remove(&mut rows[start..start + row::PLACES], count, task);
    counts[cpu] = (count - 1) as u16;
}

// The task enters the row of this CPU, in front of its equals or behind them.
pub fn enqueue(
    rows: &mut [u16],
    counts: &mut [u16],
    prio: &[u8],
    cpu: usize,
    task: u16,
    front: bool,
)
    requires holds_rows { HoldsRows counts.old rows.old }
    requires cpu_in_bounds { cpu < length counts.old }
    requires task_lt_task_places { task < task_places }
    requires prio_len { length prio.now ≡ task_places }
    requires task_bound { get_or prio.now task 0 ≤ highest_priority }
    requires joinable { Joinable prio.now (row_at counts.old rows.old cpu) }
    ensures rows_are { let key = entry_key front (get_or prio.now task 0) in
        let longer = queued key (λ u. get_or prio.now u 0) task (row_at counts.old rows.old cpu) in
        let left = rows_with counts.old rows.old cpu longer in
        rows.new ≡ flat_of left }
    ensures counts_are { let key = entry_key front (get_or prio.now task 0) in
        let longer = queued key (λ u. get_or prio.now u 0) task (row_at counts.old rows.old cpu) in
        let left = rows_with counts.old rows.old cpu longer in
        counts.new ≡ row_counts left }
{
    let start = cpu * row::PLACES;
    let count = counts[cpu] as usize;
    let key = row::entry_key(front, prio[task as usize]);
    row::insert(
        &mut rows[start..start + row::PLACES],
        prio,
        count,
        task,
        key,
    );
    counts[cpu] = (count + 1) as u16;
}

// The task goes to another place in the row of this CPU, in front of its equals or behind them.
pub fn reorder(rows: &mut [u16], counts: &[u16], prio: &[u8], cpu: usize, task: u16, front: bool)
    requires holds_rows { HoldsRows counts.now rows.old }
    requires cpu_in_bounds { cpu < length counts.now }
    requires prio_len { length prio.now ≡ task_places }
    requires task_bound { get_or prio.now task 0 ≤ highest_priority }
    requires reorderable { Reorderable prio.now task (row_at counts.now rows.old cpu) }
    ensures rows_are { let key = entry_key front (get_or prio.now task 0) in
        let others = delete task (row_at counts.now rows.old cpu) in
        let left = rows_with counts.now rows.old cpu (queued key (λ u. get_or prio.now u 0) task others) in
        rows.new ≡ flat_of left }
    ensures counts_are { let key = entry_key front (get_or prio.now task 0) in
        let others = delete task (row_at counts.now rows.old cpu) in
        let left = rows_with counts.now rows.old cpu (queued key (λ u. get_or prio.now u 0) task others) in
        counts.now ≡ row_counts left }
{
    let start = cpu * row::PLACES;
    let count = counts[cpu] as usize;
    let key = row::entry_key(front, prio[task as usize]);
    row::reorder(
        &mut rows[start..start + row::PLACES],
        prio,
        count,
        task,
        key,
    );
}
