//! What a replica inside a program has.
use kat_design::Design;
use kat_lattice::Tally;
use kat_node::Node;
use kat_type::SeqType;

/// A sequential type, a design that answers as it does, and a replica of the design with its number.
///
/// Its marks are, for each replica, the time of its latest operation that the state has: by these it ships differences. They are known
/// as long as nothing was merged or restored that came without marks.
pub struct Contents {
    pub ty: SeqType,
    pub design: Design,
    pub node: Node,
    pub marks: Option<Tally>,
}

impl Drop for Contents {
    fn drop(self) {
        let Self {
            ty: _,
            design: _,
            node: _,
            marks: _,
        } = self;
    }
}
