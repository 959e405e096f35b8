// One coordinate of a drawing: its control points and its registers. What they mean is in specs/; there is no code here.
#![tactic(auto)]

// The registers of one coordinate, in 65,536ths of a unit.
#[derive(Clone, Copy)]
pub struct Registers {
    pub a: i32,
    pub b: i32,
    pub c: i32,
    pub d: i32,
}

// One coordinate of a curve's control points, the first point first.
#[derive(Clone, Copy)]
pub struct Cubic {
    pub p0: i32,
    pub p1: i32,
    pub p2: i32,
    pub p3: i32,
}

#[derive(Clone, Copy)]
pub struct Quadratic {
    pub p0: i32,
    pub p1: i32,
    pub p2: i32,
}
