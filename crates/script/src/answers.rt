// Something for each answer, 0 to 3.
pub const ANSWERS: usize = 4;

pub type ByAnswer<T> = [T; ANSWERS];
