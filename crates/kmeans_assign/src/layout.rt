// The parts that a pass is lent, in one struct: of the work area those of the state, and of the leaves their
// coordinates.
#![tactic(auto)]

ghost use Rattle.kmeans_layout.specs.Sized.{Labelled};
ghost use Rattle.kmeans_assign.specs.Parts.{Sized};

use limits::Shape;

// The centres, the scales and the drifts are only read; they are lent as `&mut`, so that it is known that they stay.
#[derive(Drop)]
pub struct Assignment<'a> {
    pub shape: Shape,
    pub coords: &'a [f64],
    pub centers: &'a mut [f64],
    pub scale: &'a mut [f64],
    pub low: &'a mut [f64],
    pub high: &'a mut [f64],
    pub served: &'a mut [f64],
    pub drift: &'a mut [f64],
    pub labels: &'a mut [u32],
    ghost sized: { Sized shape coords.now centers.now scale.now low.now high.now served.now drift.now labels.now },
    ghost labelled: { Labelled shape.m shape.k labels.now },
}
