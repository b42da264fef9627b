//! The two kinds of tree.

ghost use Rattle.std.specs.Prelude.{◌≡◌};
ghost use Rattle.tp_layout.specs.Node.{entry_len, is_long, kind_number, most_entries, most_level};

/// Which tree a node belongs to.
#[derive(Clone, Copy, Debug, PartialEq, Eq)]
pub enum TreeKind {
    /// The tree of the pool's volumes.
    Device,
    /// The tree of one volume's blocks.
    Mapping,
}

impl TreeKind {
    /// The number by which a node's bytes tell its kind.
    pub fn number(self) -> u32
        ensures { result ≡ kind_number self }
    {
        match self {
            TreeKind::Device => 1,
            TreeKind::Mapping => 2,
        }
    }

    /// The greatest level of a node of this kind. A leaf has level 0, a parent its children's level plus 1.
    pub fn most_level(self) -> u32
        ensures { result ≡ most_level self }
    {
        match self {
            TreeKind::Device => 2,
            TreeKind::Mapping => 3,
        }
    }

    /// The most entries of a node of this kind and level. A node that is no root has half of it at least.
    pub fn most_entries(self, level: u32) -> usize
        ensures { result ≡ most_entries (is_long self level) }
    {
        if is_long_of(self, level) { 126 } else { 252 }
    }
}

/// The bytes of one entry of a node, whose entries are the long ones or not.
pub(crate) fn entry_len_of(long: bool) -> usize
    ensures { result ≡ entry_len long }
{
    if long { 32 } else { 16 }
}

/// Whether the entries of a node are the long ones: those of a leaf of the device tree.
pub(crate) fn is_long_of(kind: TreeKind, level: u32) -> bool
    ensures { result ≡ is_long kind level }
{
    matches!(kind, TreeKind::Device) && level == 0
}
