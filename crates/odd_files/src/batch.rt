// The shares of one batch: what their heads have in common, and which file the share of each node is in.
use group::Group;
use heads::Head;
use odd_problems::Matter;

#[derive(Clone, Copy)]
pub struct Batch {
    // The head of the first share, and the number of the argument that names its file. The others' heads are the same, but for the node.
    head: Head,
    first: usize,
    // At index i the file of node i+1.
    files: [Option<usize>; 16],
}

impl Batch {
    // The batch of this share, which is in this file and the first.
    pub fn of(head: Head, nth: usize) -> Batch {
        let mut batch = Batch {
            head,
            first: nth,
            files: [None; 16],
        };
        batch.keep(head.node, nth);
        batch
    }

    pub fn group(&self) -> Group {
        self.head.group
    }

    // The head of a node's share.
    pub fn head_of(&self, node: usize) -> Head {
        Head { node, ..self.head }
    }

    // The file of a node.
    pub fn file_of(&self, node: usize) -> Option<usize> {
        let index = node.checked_sub(1)?;
        *self.files.get(index)?
    }

    // A node's share is in this file.
    fn keep(&mut self, node: usize, nth: usize) {
        if let Some(index) = node.checked_sub(1)
            && let Some(file) = self.files.get_mut(index)
        {
            *file = Some(nth);
        }
    }

    // Takes another share, which is in this file: it must be of this batch, and of a node that has no file yet.
    pub fn take(&mut self, head: Head, nth: usize) -> Result<(), Matter> {
        if head != self.head_of(head.node) {
            return Err(Matter::OtherBatch {
                head,
                first: self.first,
                known: self.head,
            });
        }
        if let Some(earlier) = self.file_of(head.node) {
            return Err(Matter::SameNode {
                node: head.node,
                earlier,
            });
        }
        self.keep(head.node, nth);
        Ok(())
    }

    // The node whose share is in this file.
    pub fn node_in(&self, nth: usize) -> Option<usize> {
        let index = self.files.iter().position(|file| *file == Some(nth))?;
        Some(index + 1)
    }

    // How many nodes have a file.
    pub fn nodes(&self) -> usize {
        self.files.iter().flatten().count()
    }
}
