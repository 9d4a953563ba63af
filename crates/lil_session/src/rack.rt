ghost use Rattle.std.specs.Prelude.{◌≡◌, ℕ, List, [], ◌∷◌, Option, Bool, true, IfOk, OnOk, OnErr};
ghost use Rattle.lil_volume.specs.{Causes.HasCause, Told.{followed_by, KeyTaken as WordGiven}};

use std::alloc::Global;
use thiserror::Error;

/// The channel gave no answer.
#[derive(Clone, Copy, Debug, PartialEq, Eq, Error)]
#[error("the channel failed")]
pub struct ChannelFailed;

/// Takes 16-bit words and gives 16-bit words.
pub trait Channel: Drop {
    /// The words taken, or None where they are not told.
    ghost taken: { Self → Option (List ℕ) };

    /// The words that it is still to give, or None where they are not told.
    ghost to_give: { Self → Option (List ℕ) };

    /// Whether it is finished.
    ghost finished: { Self → Bool };

    /// How often the channel failed.
    ghost faults: { Self → ℕ };

    /// Takes a word. A failed call changes nothing but the count of faults.
    fn put(&mut self, w: u16) -> Result<(), ChannelFailed>
        ensures ok { OnOk result (taken self.new ≡ followed_by (taken self.old) (w ∷ [])) }
        ensures err { OnErr result (taken self.new ≡ taken self.old) }
        ensures to_give { to_give self.new ≡ to_give self.old }
        ensures finished { finished self.new ≡ finished self.old }
        ensures cause { HasCause (faults self.old) (faults self.new) result };

    /// Gives the next word, or None where none is left. A failed call changes nothing but the count of faults.
    fn get(&mut self) -> Result<Option<u16>, ChannelFailed>
        ensures ok { IfOk result (λ word. WordGiven (to_give self.old) (to_give self.new) word) }
        ensures err { OnErr result (to_give self.new ≡ to_give self.old) }
        ensures taken { taken self.new ≡ taken self.old }
        ensures finished { finished self.new ≡ finished self.old }
        ensures cause { HasCause (faults self.old) (faults self.new) result };

    /// Ends its use. A failed call changes nothing but the count of faults.
    fn finish(&mut self) -> Result<(), ChannelFailed>
        ensures ok { OnOk result (finished self.new ≡ true) }
        ensures err { OnErr result (finished self.new ≡ finished self.old) }
        ensures taken { taken self.new ≡ taken self.old }
        ensures to_give { to_give self.new ≡ to_give self.old }
        ensures cause { HasCause (faults self.old) (faults self.new) result };
}

/// A channel of any kind in a box.
impl Channel for Box<dyn Channel> {
    ghost taken = { λ b. (Channel-box b).taken b.value };

    ghost to_give = { λ b. (Channel-box b).to_give b.value };

    ghost finished = { λ b. (Channel-box b).finished b.value };

    ghost faults = { λ b. (Channel-box b).faults b.value };

    fn put(&mut self, w: u16) -> Result<(), ChannelFailed> {
        (**self).put(w)
    }

    fn get(&mut self) -> Result<Option<u16>, ChannelFailed> {
        (**self).get()
    }

    fn finish(&mut self) -> Result<(), ChannelFailed> {
        (**self).finish()
    }
}

/// The channels of a program, which are of one kind: boxes where nothing else is said.
#[derive(Drop)]
pub struct Rack<C = Box<dyn Channel>> {
    channels: Vec<C>,
}

impl<C: Channel> Rack<C> {
    /// No channels. It takes no memory.
    pub fn new(alloc: Global) -> Rack<C>
        ensures { result.channels.items ≡ [] }
    {
        Rack {
            channels: Vec::new(alloc),
        }
    }
}
