//! Whether two jobs are the same.

ghost use Rattle.std.specs.Prelude.{◌≡◌, Decides};

use crate::job::Job;

impl Job {
    /// Whether it is the same job: of the same source, and so of the same module, with all else that is asked for. It
    /// takes no memory.
    pub fn same(&self, other: &Job) -> bool
        ensures { Decides result (self.now ≡ other.now) }
    {
        self.root == other.root
            && self.limit() == other.limit()
            && self.edition() == other.edition()
            && self.kind.same(&other.kind)
            && self.property.same(&other.property)
            && self.module.same(&other.module)
    }
}
