//! Numbers of things.

use std::fmt;

/// How many things there are, and what one is called: `1 step`, `2 steps`.
#[derive(Clone, Copy)]
pub struct Count(pub u32, pub &'static str);

impl fmt::Display for Count {
    fn fmt<W: fmt::Write>(&self, f: &mut fmt::Formatter<W>) -> fmt::Result {
        let (number, thing) = (self.0, self.1);
        let ending = if number == 1 { "" } else { "s" };
        write!(f, "{number} {thing}{ending}")
    }
}
