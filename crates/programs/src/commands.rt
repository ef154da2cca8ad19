// The three programs.
#[derive(Clone, Copy, PartialEq, Eq, Debug)]
pub enum Command {
    Twins,
    Sums,
    Convert,
}
