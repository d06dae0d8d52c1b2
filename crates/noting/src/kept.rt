// What each hands back: all that it hands back without the set, and the set after it.
use touched::Touched;

#[derive(Clone, Copy)]
pub struct Noted<T> {
    pub done: T,
    pub touched: Touched,
}
