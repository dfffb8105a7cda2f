// Whether a send may start a handler, the message aside, and if not, why not.
#![tactic(auto)]

ghost use Rattle.std.specs.Prelude.{◌≡◌};
ghost use Rattle.delivery.specs.Delivery.{judged};
ghost use Rattle.delivery.specs.Delivery.{delivered as Delivered·so};

use permset::PermSet;
use table::Handler;

// The receiver has another name; it lacks these permissions of the required set; the sender lacks these permissions of the receiver's
// guard; or delivered. `judged` of specs/Delivery.antt says which case it is, with which
// permissions, and `delivered` what each case means.
#[derive(Clone, Copy)]
pub enum Delivery {
    OtherName,
    ReceiverLacks(PermSet),
    SenderLacks(PermSet),
    Delivered,
}

impl Delivery {
    // Whether the send may start the handler.
    #[tactic(auto, unfolding(crate::specs::Delivery::delivered))]
    pub fn delivered(self) -> bool
        ensures { result ≡ Delivered·so self }
    {
        matches!(self, Delivery::Delivered)
    }
}

// What becomes of a send to a name, with a set required of the receiver, from a sender with these permissions: the first cause that applies.
#[tactic(auto, unfolding(crate::specs::Delivery::judged))]
pub fn judge(name: u32, required: PermSet, sender: PermSet, receiver: Handler) -> Delivery
    ensures { result ≡ judged name required.bits sender.bits receiver }
{
    let perms = receiver.perms;
    let guard = receiver.guard;
    if receiver.name != name {
        return Delivery::OtherName;
    }
    if !required.within(perms) {
        return Delivery::ReceiverLacks(required.difference(perms));
    }
    if !guard.within(sender) {
        return Delivery::SenderLacks(guard.difference(sender));
    }
    Delivery::Delivered
}
