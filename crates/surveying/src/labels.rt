// The labels of a tile's mouths: two mouths have one label just if passes join them.
ghost use Rattle.std.specs.Prelude.{◌≡◌, ◌+◌, ◌^◌, ◌<◌, ◌≤◌, length, ◌≢◌};
ghost use Rattle.seams.specs.Joins.{label, Unjoined, Relabelled};
ghost use Rattle.surveying.specs.Turns.{JoinedAt};

use tables::PassRecord;

// Gives each mouth its own number for a label.
pub(crate) fn unjoin(labels: &mut [usize])
    ensures { Unjoined (length labels.old) labels.new }
{
    for (k, label) in labels.iter_mut().enumerate() {
        *label = k;
    }
}

// Makes every label `old` the label `new`.
fn relabel(labels: &mut [usize], new: usize, old: usize)
    ensures { Relabelled labels.old labels.new new old }
{
    for label in labels.iter_mut() {
        if *label == old {
            *label = new;
        }
    }
}

// Joins two mouths at a level if they are not yet: notes a pass behind those kept, and makes their labels one. Says how
// many passes are kept then.
pub(crate) fn join<M: Copy>(
    labels: &mut [usize],
    passes: &mut [PassRecord<M>],
    count: usize,
    first: usize,
    x: usize,
    y: usize,
    level: M,
) -> usize
    requires labels { (x < length labels.old) × (y < length labels.old) × (first + length labels.old < 2 ^ 64) }
    requires room { (label labels.old x ≢ label labels.old y) → count < length passes.old }
    ensures { JoinedAt first x y level labels.old passes.old count labels.new passes.new result }
{
    let new = labels[x];
    let old = labels[y];
    if new == old {
        return count;
    }
    passes[count] = PassRecord {
        from: first + x,
        to: first + y,
        level,
    };
    relabel(labels, new, old);
    count + 1
}
