//! What a guest's words mean, and how a reply is written.
ghost use Rattle.std.specs.Prelude.{◌≡◌, ℕ, Bool, List, IfOk, OnErr};
ghost use Rattle.proxy_core.specs.declared.queue.Entry.{Entry};
ghost use Rattle.resp_requests.specs.declared.fault.Fault.{Fault};
ghost use Rattle.resp_requests.specs.Given.{texts};
ghost use Rattle.resp_requests.specs.Requests.{Command};

use proxy_core::{Bytes, Entry};
use resp_requests::Fault;
use std::alloc::{AllocError, Global};

/// A reply as the bytes that its guest reads.
pub trait Written: Bytes {
    ghost written: { Self → List ℕ };

    /// All bytes of the reply.
    fn written(&self) -> &[u8]
        ensures { result.now ≡ written self.now };
}

impl Written for Vec<u8> {
    ghost written = { λ text. text.items };

    fn written(&self) -> &[u8] {
        self
    }
}

/// What the words of one guest mean: by what was said before them, as behind HELLO or MULTI.
pub trait Translator<C, V>: Drop {
    // before, a guest's words, what they put into its queue, and after
    ghost translates: { Self → Command → Entry C V → Self → Type 0 };
    // what is answered to bytes that are no request
    ghost refuses: { Self → Fault → V → Type 0 };
    // whether the guest takes its leave, as by QUIT: no word behind is read
    ghost has_ended: { Self → Bool };

    /// What a command puts into its guest's queue: a command for the servers, or an answer of the proxy's own.
    /// Where memory is refused nothing changes.
    fn translate(&mut self, alloc: Global, words: &[Vec<u8>]) -> Result<Entry<C, V>, AllocError>
        ensures ok { IfOk result (λ entry. translates self.old (texts words.now) entry self.new) }
        ensures err { OnErr result (self.new ≡ self.old) };

    /// What is answered to bytes that are no request.
    fn refuse(&self, alloc: Global, fault: Fault) -> Result<V, AllocError>
        ensures { IfOk result (λ reply. refuses self.now fault reply) };

    /// Whether nothing more is read of the guest.
    fn has_ended(&self) -> bool
        ensures { result ≡ has_ended self.now };
}
