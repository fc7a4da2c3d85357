// Which nodes may be handed in.
ghost use Rattle.std.specs.Prelude.{◌≡◌};
ghost use Rattle.node.specs.Range.{draft_valid, published_valid, version_valid, others_valid, valid};

use crate::node::Node;
use node_parameters::error_reports::error_reports_valid;
use protocol_version::Version;

impl Node {
    // Whether a node of the draft has nothing that belongs to the published form.
    fn draft_valid(self) -> bool
        ensures { result ≡ draft_valid self }
    {
        !self.blacklist.held && !self.rate.held && self.prefix.valid()
    }

    // Whether a node of the published form has no prefix, and a blacklist in range if it has one.
    fn published_valid(self) -> bool
        ensures { result ≡ published_valid self }
    {
        !self.prefix.held && self.blacklist.valid()
    }

    // Whether what the node has besides belongs to its form.
    #[tactic(auto, unfolding(crate::specs::Range::version_valid))]
    fn version_valid(self) -> bool
        ensures { result ≡ version_valid self }
    {
        error_reports_valid(self.version, self.errors)
            && match self.version {
                Version::Draft => self.draft_valid(),
                Version::Published => self.published_valid(),
            }
    }

    fn others_valid(self) -> bool
        ensures { result ≡ others_valid self }
    {
        self.role <= 1 && self.jrc.valid_jrc() && self.network.valid() && self.version_valid()
    }

    // Whether the node may be handed in; where it may not, each call answers RANGE.
    pub fn valid(self) -> bool
        ensures { result ≡ valid self }
    {
        let allowed = self.version.allows_additional_info();
        self.sets.valid(self.role == 1, allowed)
            && self.attempt.valid()
            && self.address.valid(self.attempt.clock)
            && self.others_valid()
    }
}
