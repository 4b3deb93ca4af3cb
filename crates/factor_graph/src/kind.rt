// What a node is, by the word that the record has for it.

#[derive(Clone, Copy, PartialEq, Eq)]
pub enum NodeKind {
    Grade = 0,
    Factor = 1,
    Input = 2,
    Tree = 3,
}
