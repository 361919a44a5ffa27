//! What is kept of a node and of a list.
// A node: the list that it is in, and the nodes before and after it there.
#[derive(Clone, Copy)]
pub(crate) struct Node {
    pub(crate) list: Option<u32>,
    pub(crate) prev: Option<u32>,
    pub(crate) next: Option<u32>,
}

// The first and the last node of a list.
#[derive(Clone, Copy)]
pub(crate) struct Ends {
    pub(crate) first: Option<u32>,
    pub(crate) last: Option<u32>,
}

// A node that is in no list.
pub(crate) const FREE: Node = Node {
    list: None,
    prev: None,
    next: None,
};

// The ends of a list without nodes.
pub(crate) const EMPTY: Ends = Ends {
    first: None,
    last: None,
};
