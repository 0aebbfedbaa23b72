// The flood itself: Priority-Flood over any ground.
ghost use Rattle.std.specs.Prelude.{◌≡◌, ◌<◌, ◌≤◌, true, false, [], ◌∷◌, length, drop};
ghost use Rattle.marks.specs.Refusals.{told, checked};
ghost use Rattle.flood.specs.Calls.{short, Leaves};
ghost use Rattle.flood.specs.Grounds.{Flooded};
ghost use Rattle.flood.specs.Of.{graph_of};
ghost use Rattle.flood.specs.Queues.{waiting};
ghost use Rattle.flood.specs.State.{onward};
ghost use Rattle.flood.specs.Turns.{turns, Roomy, Between, Within, Stays};

use crate::entry::Entry;
use crate::ground::Ground;
use crate::heap::Heap;
use crate::queue::Queue;
use marks::{Mark, Order, Refusal, higher};

// Lets each node that drains wait at its drain level, and no other.
fn start<G: Ground>(ground: &G, levels: &mut [Option<G::Mark>], queue: &mut Queue<G::Mark>)
    requires room { Roomy (G.Ground.nodes ground.now) levels.old queue.old }
    requires empty { (waiting queue.old ≡ []) × (queue.old.heap.now.len ≡ 0) }
    ensures stays { Stays (G.Ground.nodes ground.now) levels.old queue.old levels.new queue.new }
    ensures state { Between (graph_of G.Mark.Order G.Ground ground.now) levels.new queue.new }
{
    // The ground and the queue are asked by the number, too.
    for node in 0..ground.nodes() {
        let level = ground.drain(node);
        levels[node] = level;
        match level {
            Some(level) => queue.put(Entry {
                level,
                node,
                origin: node,
            }),
            None => queue.leave_out(node),
        }
    }
}

// Passes the level of the node of `from` on at its crossing at `place`, and says whether there is one.
fn cross<G: Ground>(
    ground: &G,
    levels: &mut [Option<G::Mark>],
    queue: &mut Queue<G::Mark>,
    from: Entry<G::Mark>,
    place: usize,
) -> bool
    requires { Within (graph_of G.Mark.Order G.Ground ground.now) from place levels.old queue.old }
    ensures stays { Stays (G.Ground.nodes ground.now) levels.old queue.old levels.new queue.new }
    ensures done { (result ≡ true → place < length (G.Ground.crossings ground.now from.node)) × (result ≡ false → length (G.Ground.crossings ground.now from.node) ≤ place) }
    ensures turns { turns (G.Ground.nodes ground.now) levels.new queue.new ≡ turns (G.Ground.nodes ground.now) levels.old queue.old }
    ensures state { Within (graph_of G.Mark.Order G.Ground ground.now) from (onward result place) levels.new queue.new }
{
    let Some(crossing) = ground.crossing(from.node, place) else {
        return false;
    };
    let x = Entry {
        level: higher(crossing.1, from.level),
        node: crossing.0,
        origin: from.origin,
    };
    let known = levels[x.node];
    match known {
        None => {
            levels[x.node] = Some(x.level);
            queue.put(x);
        }
        Some(old) => {
            if !old.at_most(&x.level) {
                levels[x.node] = Some(x.level);
                queue.lower(x);
            }
        }
    }
    true
}

// Passes the level of the node of `from` on at each of its crossings.
fn spread<G: Ground>(
    ground: &G,
    levels: &mut [Option<G::Mark>],
    queue: &mut Queue<G::Mark>,
    from: Entry<G::Mark>,
)
    requires { Within (graph_of G.Mark.Order G.Ground ground.now) from 0 levels.old queue.old }
    ensures stays { Stays (G.Ground.nodes ground.now) levels.old queue.old levels.new queue.new }
    ensures turns { turns (G.Ground.nodes ground.now) levels.new queue.new ≡ turns (G.Ground.nodes ground.now) levels.old queue.old }
    ensures state { Between (graph_of G.Mark.Order G.Ground ground.now) levels.new queue.new }
{
    // A ground does not say how many crossings a node has: the first place without one ends the turn.
    let mut place = 0;
    while cross(ground, levels, queue, from, place) {
        place += 1;
    }
}

// Floods a ground for whose nodes the slices have room. They are lent one by one: of a struct that holds several, each call
// would have to promise whose they are.
fn run<G: Ground>(
    ground: &G,
    levels: &mut [Option<G::Mark>],
    origins: &mut [Option<usize>],
    slots: &mut [Entry<G::Mark>],
)
    requires { (G.Ground.nodes ground.now ≤ length levels.old) × (G.Ground.nodes ground.now ≤ length origins.old) × (G.Ground.nodes ground.now ≤ length slots.old) }
    ensures rest { (drop (G.Ground.nodes ground.now) levels.new ≡ drop (G.Ground.nodes ground.now) levels.old) × (drop (G.Ground.nodes ground.now) origins.new ≡ drop (G.Ground.nodes ground.now) origins.old) }
    ensures found { Flooded (graph_of G.Mark.Order G.Ground ground.now) levels.new origins.new }
{
    let mut heap = Heap::new(slots);
    let mut queue = Queue::new(&mut heap, origins);
    start(ground, levels, &mut queue);
    while let Some(from) = queue.take() {
        spread(ground, levels, &mut queue, from);
    }
}

// Floods a ground: gives each node the least worst level over its routes and a draining node in which such a route ends,
// or none of either, in the nodes' order. The slots are scratch. Refused where a slice is shorter than the nodes.
pub fn flood<G: Ground>(
    ground: &G,
    levels: &mut [Option<G::Mark>],
    origins: &mut [Option<usize>],
    slots: &mut [Entry<G::Mark>],
) -> Result<(), Refusal>
    ensures told { told result ≡ checked ((short (G.Ground.nodes ground.now) levels.old origins.old slots.old, 5) ∷ []) tt }
    ensures leaves { Leaves (graph_of G.Mark.Order G.Ground ground.now) result levels.new levels.old origins.new origins.old slots.new slots.old }
{
    let count = ground.nodes();
    if levels.len() < count || origins.len() < count || slots.len() < count {
        return Err(Refusal::ScratchShort);
    }
    run(ground, levels, origins, slots);
    Ok(())
}
