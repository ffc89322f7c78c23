//! What a walk is told of a machine.
ghost use Rattle.std.specs.Prelude.{◌≡◌, IfOk};
ghost use Rattle.kat_walk.specs.Machines.{Machine};

use std::alloc::{AllocError, Global};

/// A machine that reads tokens: which may follow, what each leads to, and where a list ends.
pub trait Grammar: Sized {
    type Token: Copy;

    type State: Drop;

    // the machine that it describes
    ghost machine: { Self → Machine Self.State Self.Token };

    /// The tokens that may follow, in their order.
    fn allowed(&self, alloc: Global, state: &Self::State) -> Result<Vec<Self::Token>, AllocError>
        ensures { IfOk result (λ tokens. tokens.items ≡ (machine self.now).allowed state.now) };

    /// The state after a token.
    fn step(
        &self,
        alloc: Global,
        state: &Self::State,
        token: Self::Token,
    ) -> Result<Self::State, AllocError>
        ensures { IfOk result (λ behind. behind ≡ (machine self.now).step state.now token) };

    /// Whether a list ends here.
    fn is_done(&self, alloc: Global, state: &Self::State) -> Result<bool, AllocError>
        ensures { IfOk result (λ done. done ≡ (machine self.now).done state.now) };
}
