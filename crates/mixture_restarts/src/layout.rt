// Where the held run's find stands while the next runs are played: arrays of its own, beside the one area in which all
// runs are played.
ghost use Rattle.std.specs.Prelude.{◌≡◌, ◌+◌, ◌*◌, ◌≤◌, length};
ghost use Rattle.mixture_run.specs.Sized.{weights_in, kappas_in, responsibilities_in};
ghost use Rattle.mixture_run.specs.Areas.{Same};
ghost use Rattle.mixture_restarts.specs.Sized.{SizedStore};

use limits::Shape;
use mixture_run::layout::{Area, Found};

// The sizes of a run, and room for what it found: the directions, and the rest of its area.
#[derive(Drop)]
pub struct Store<'a> {
    pub shape: Shape,
    pub directions: &'a mut [f64],
    pub rest: &'a mut [f64],
    ghost sized: { SizedStore shape.m shape.k shape.d directions.now rest.now },
}

impl<'a> Store<'a> {
    // A store in the lent array.
    pub fn of(shape: Shape, work: &'a mut [f64]) -> Store<'a>
        requires { (shape.k * shape.d + (shape.k + shape.k + shape.k + shape.k + shape.k + shape.m * shape.k)
            ≤ length work.old)
            × (shape.k * shape.d + (shape.m + shape.m + shape.m + shape.m + shape.k) ≤ length work.old) }
        ensures { result.shape ≡ shape }
    {
        let (directions, rest) = work.split_at_mut(shape.k * shape.d);
        Store {
            shape,
            directions,
            rest,
        }
    }

    // What stands here.
    pub fn found(&self) -> Found<'_>
        ensures { (result.shape ≡ self.now.shape) × (result.directions.now ≡ self.now.directions.now)
            × (result.weights.now ≡ weights_in self.now.shape.k self.now.rest.now)
            × (result.concentrations.now ≡ kappas_in self.now.shape.k self.now.rest.now)
            × (result.responsibilities.now
            ≡ responsibilities_in self.now.shape.m self.now.shape.k self.now.rest.now) }
    {
        mixture_run::layout::found_in(self.shape, self.directions, self.rest)
    }
}

// What the run in an area found and what is held change places; nothing is copied.
pub fn exchange<'a>(held: &mut Store<'a>, area: &mut Area<'a>)
    requires { held.old.shape ≡ area.old.shape }
    ensures same { (held.new.shape ≡ held.old.shape) × (Same area.old area.new) }
    ensures held { (held.new.directions.now ≡ area.old.centers.now) × (held.new.rest.now ≡ area.old.rest.now) }
    ensures area { (area.new.centers.now ≡ held.old.directions.now) × (area.new.rest.now ≡ held.old.rest.now) }
{
    std::mem::swap(&mut held.directions, &mut area.centers);
    std::mem::swap(&mut held.rest, &mut area.rest);
}
