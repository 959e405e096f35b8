// What a path's list is, and its theorems: there is no code here.
#![tactic(auto)]

use rules::Degree;

// How a path is drawn, beside its points and limits: so many segments of a degree, positions that count 2^finest-ths of each, and one start level
// for all.
#[derive(Clone, Copy)]
pub struct Shape {
    pub degree: Degree,
    pub segments: u32,
    pub finest: u32,
    pub level: u32,
}

// What drawing and measuring a path answer where nothing refuses it: the number of points and the length.
#[derive(Clone, Copy)]
pub struct Totals {
    pub points: u32,
    pub length: u32,
}
