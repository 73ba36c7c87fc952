// Listing: every step of the offers, in the stated order.
ghost use Rattle.std.specs.Prelude.{◌≡◌, Option};
ghost use Rattle.std.specs.List.{flat_map};
ghost use Rattle.records.specs.declared.step.Step.{Step as StepRow};
ghost use Rattle.records.specs.Lists.{Room, Grown};
ghost use Rattle.listing.specs.declared.offer.Offer.{Offer as Offered};
ghost use Rattle.listing.specs.Offers.{internal_step, common_channel, meeting_step, meetings, send_step, receive_step, made, Computes, listed};

use crate::offer::{Offer, Role};
use arrivals::table::Arrivals;
use records::list::RecordList;
use records::step::Step;

// The step of an internal front.
fn internal(o: &Offer) -> Option<Step>
    ensures { result ≡ internal_step o.now }
{
    match o.role {
        Role::Internal => Some(Step::internal(o.process, o.front)),
        Role::Send(_) | Role::Receive(_) => None,
    }
}

// The channel as which channels of two processes both arrive at the lowest PAR above them.
fn common_channel(arrivals: &Arrivals, p: u8, sent: u8, q: u8, received: u8) -> Option<u8>
    ensures { result ≡ common_channel arrivals.now.channels p sent q received }
{
    let sent = arrivals.meeting(p, q, sent)?;
    let received = arrivals.meeting(q, p, received)?;
    (sent == received).then_some(sent)
}

// The step of a send and a receive that meet: of different processes, which agree in what they exchange.
fn meeting(send: &Offer, receive: &Offer, arrivals: &Arrivals) -> Option<Step>
    ensures { result ≡ meeting_step arrivals.now.channels send.now receive.now }
{
    let (Role::Send(sent), Role::Receive(wanted)) = (send.role, receive.role) else {
        return None;
    };
    if send.process == receive.process || !sent.agrees(&wanted) {
        return None;
    }
    let (p, q) = (send.process, receive.process);
    let channel = common_channel(arrivals, p, sent.channel, q, wanted.channel)?;
    Some(Step::meeting(p, send.front, q, receive.front, channel, sent.message))
}

// The step of a send whose channel passes the root.
fn outside_send(o: &Offer, arrivals: &Arrivals) -> Option<Step>
    ensures { result ≡ send_step arrivals.now.channels o.now }
{
    let Role::Send(sent) = o.role else {
        return None;
    };
    let channel = arrivals.outside(o.process, sent.channel)?;
    Some(Step::outside_send(o.process, o.front, channel, sent.message))
}

// The step of a receive whose channel passes the root.
// Apart from that of a send: one function would be handed the variant to match and the step to make.
fn outside_receive(o: &Offer, arrivals: &Arrivals) -> Option<Step>
    ensures { result ≡ receive_step arrivals.now.channels o.now }
{
    let Role::Receive(wanted) = o.role else {
        return None;
    };
    let channel = arrivals.outside(o.process, wanted.channel)?;
    Some(Step::outside_receive(o.process, o.front, channel, wanted.message))
}

// The steps that a function makes of offers, in their order.
fn put_each<F: Fn(&Offer) -> Option<Step>>(
    offers: &[Offer],
    step_of: F,
    out: &mut RecordList<'_, Step>,
)
    requires callable { F.IsAlwaysCallable step_of }
    requires room { (f : Offered → Option StepRow) × Computes (F.post step_of) f × Room out.old (made f offers.now) }
    ensures { (f : Offered → Option StepRow) → Computes (F.post step_of) f → Room out.old (made f offers.now) → Grown out.old out.new (made f offers.now) }
{
    for o in offers {
        out.append_some(step_of(o));
    }
}

fn put_meetings(offers: &[Offer], arrivals: &Arrivals, out: &mut RecordList<'_, Step>)
    requires { Room out.old (flat_map (meetings arrivals.now.channels offers.now) offers.now) }
    ensures { Grown out.old out.new (flat_map (meetings arrivals.now.channels offers.now) offers.now) }
{
    for send in offers {
        let meets = |receive: &Offer| -> Option<Step>
            ensures { result ≡ meeting_step arrivals.entry.now.channels send.entry.now receive.now }
        { meeting(send, receive, arrivals) };
        put_each(offers, meets, out);
    }
}

// Appends all steps of the offers, in their order.
pub fn put_steps(offers: &[Offer], arrivals: &Arrivals, out: &mut RecordList<'_, Step>)
    requires { Room out.old (listed arrivals.now.channels offers.now) }
    ensures { Grown out.old out.new (listed arrivals.now.channels offers.now) }
{
    let sends_outside = |o: &Offer| -> Option<Step>
        ensures { result ≡ send_step arrivals.entry.now.channels o.now }
    { outside_send(o, arrivals) };
    let receives_outside = |o: &Offer| -> Option<Step>
        ensures { result ≡ receive_step arrivals.entry.now.channels o.now }
    { outside_receive(o, arrivals) };
    put_each(offers, internal, out);
    put_meetings(offers, arrivals, out);
    put_each(offers, sends_outside, out);
    put_each(offers, receives_outside, out);
}
