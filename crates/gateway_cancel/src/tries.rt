// The tries of a gateway cancel: a try goes out (`sent`), and its send has failed (`failed`), by value;
// `send` and `fail` are the same steps on a record that is lent. Rests on orders.
ghost use Rattle.std.specs.Prelude.{◌≡◌};
ghost use Rattle.machine.specs.Amend.{send_refused};
ghost use Rattle.gateway_cancel.specs.Tries.{sent_once};

use store::GatewayCancel;

// One try more, which goes out and names the request `current`.
#[tactic(auto, unfolding(crate::specs::Tries::sent_once), using(orders::specs::Laws::Counts::one_more_lem))]
pub(crate) fn sent(gateway: GatewayCancel, current: u16) -> GatewayCancel
    ensures { result ≡ sent_once gateway current }
{
    GatewayCancel {
        tries: gateway.tries.saturating_add(1),
        unsent: false,
        origdownstream: current,
        ..gateway
    }
}

// The try goes out, on the record where it stands.
pub(crate) fn send(gateway: &mut GatewayCancel, current: u16)
    ensures { gateway.new ≡ sent_once gateway.old current }
{
    *gateway = sent(*gateway, current);
}

// One try is taken back, and the cancel waits.
#[tactic(auto, unfolding(machine::specs::Amend::send_refused), using(orders::specs::Laws::Counts::one_more_lem))]
pub fn failed(gateway: GatewayCancel) -> GatewayCancel
    ensures { result ≡ send_refused gateway }
{
    GatewayCancel {
        tries: gateway.tries.saturating_sub(1),
        unsent: true,
        refusedsends: gateway.refusedsends.saturating_add(1),
        ..gateway
    }
}

// The send has failed, on the record where it stands.
pub fn fail(gateway: &mut GatewayCancel)
    ensures { gateway.new ≡ send_refused gateway.old }
{
    *gateway = failed(*gateway);
}
