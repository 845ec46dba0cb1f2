// What a program wants of a page.
#[derive(Clone, Copy)]
pub enum Access {
    Fetch,
    Load,
    Store,
}
