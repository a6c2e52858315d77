// Every length of a group of previews whose numbers are known to be in range.
ghost use Rattle.std.specs.Prelude.{◌≡◌};
ghost use Rattle.preview_numbers.specs.Previews.{PreviewRange, PreviewNode, preview_file, preview_packet};

use group::Group;

// The letters of a file, k*L.
pub fn file(g: Group) -> usize
    requires { PreviewRange g }
    ensures { result ≡ preview_file g }
{
    g.k * g.l
}

// A node of such a group.
#[derive(Clone, Copy)]
pub struct Member {
    pub g: Group,
    pub node: usize,
    pub ghost of: { PreviewNode g node },
}

impl Member {
    // The letters of the node's packet, L + t(i,k).
    pub fn packet(self) -> usize
        ensures { result ≡ preview_packet self.g self.node }
    {
        self.g.l + shifts::preview_shift(self.node, self.g.k)
    }
}
