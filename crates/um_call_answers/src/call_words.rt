// A call as words state it.

/// A call as words state it: at most so many calls, the name of the function, and a text for each argument.
#[derive(Clone, Copy)]
pub struct CallWords<'a> {
    pub budget: u64,
    pub name: &'a str,
    pub texts: &'a [String],
}
