// The calls that send, on one row.
//
// A segment and the area that it goes into stay two parameters: the host lends both, and what a call leaves is said of the
// area alone.
ghost use Rattle.std.specs.Prelude.{◌≡◌, length};
ghost use Rattle.registration.specs.Emitting.{copied, copy_leaves, emitted, emitted_by, leaves, unsent};
ghost use Rattle.registration.specs.Sending.{challenged, concluded, cover_stands, failed_by, parameters_of, sent, terms_right, traffic_slot, user_failure_carrier};

use crate::keeping::{PATIENCE, expiry_after, timer_right};
use crate::row::Row;
use association::{Parameters, Set, source_port};
use esp::Suite;
use integrity::Ik;
use procedure::{Carrier, Fault, Outcome, Phase, Procedure, Sent, Service, Stage};
use slots::{Cover, Slot};

// The answer where there is no set to send by.
#[tactic(auto, unfolding(crate::specs::Emitting::unsent, esp::specs::Asking::asked))]
fn unsent_answer(segment: &[u8]) -> Result<Sent, Fault>
    ensures { result ≡ unsent segment.now }
{
    esp::sealed_len(segment.len()).ok_or(esp::Fault::SegmentLength(segment.len()))?;
    Ok(Sent {
        bytes: 0,
        carrier: Carrier::Nothing,
    })
}

// Copies a segment that goes in clear. It must not look as if it came from the protected port.
#[tactic(auto, unfolding(crate::specs::Emitting::copied, esp::specs::Asking::asked))]
fn copy_clear(port: u16, segment: &[u8], out: &mut [u8]) -> Result<Sent, Fault>
    ensures { (result, out.new) ≡ copy_leaves (copied port segment.now (length out.old)) out.old }
{
    esp::sealed_len(segment.len()).ok_or(esp::Fault::SegmentLength(segment.len()))?;
    if source_port(segment) == port {
        return Err(association::Fault::SendingPort.into());
    }
    if out.len() < segment.len() {
        return Err(esp::Fault::AreaLength(out.len()).into());
    }
    out[0..segment.len()].copy_from_slice(segment);
    Ok(Sent {
        bytes: segment.len(),
        carrier: Carrier::Clear,
    })
}

// A user failure answers the response, which came on slot 3 where the REGISTER came in clear.
fn user_failure_carrier(cover: Cover) -> Carrier
    ensures { result ≡ user_failure_carrier cover }
{
    Carrier::By(cover.slot().unwrap_or(Slot::Registration))
}

fn terms_right(timer: u32, mask: u16) -> bool
    ensures { result ≡ terms_right timer mask }
{
    timer_right(timer) && mask != 0
}

// The parameters of the set that a procedure's challenge makes.
fn parameters_of(ik: &Ik, procedure: &Procedure) -> Parameters
    ensures { result ≡ parameters_of ik.now procedure.now }
{
    Parameters {
        address: procedure.address,
        port: procedure.offer.port,
        spi: procedure.offer.spi,
        own_spi: procedure.own_spi,
        algorithm: procedure.algorithm,
        ik: *ik,
    }
}

impl Row {
    // Whether the set that the REGISTER came under stands.
    fn cover_stands(&self, cover: Cover) -> bool
        ensures { result ≡ cover_stands cover self.now.slots }
    {
        cover
            .slot()
            .is_none_or(|slot| self.slots.get(slot).is_some())
    }

    // The slot that a message to the handset goes by.
    fn traffic_slot(&self) -> Option<Slot>
        ensures { result ≡ traffic_slot self.now.slots }
    {
        match (&self.slots.old, &self.slots.current) {
            (Some(_), _) => Some(Slot::Old),
            (None, Some(_)) => Some(Slot::Current),
            (None, None) => None,
        }
    }

    // Sends by the set in a slot.
    #[tactic(auto, unfolding(crate::specs::Emitting::emitted_by))]
    fn transmit_by<S: Suite>(
        &mut self,
        slot: Slot,
        segment: &[u8],
        out: &mut [u8],
    ) -> Result<Sent, Fault>
        ensures { (self.new, result, out.new) ≡ leaves (emitted_by S.Suite.macs slot segment.now (length out.old) self.old) out.old }
    {
        let Some(mut set) = self.slots.get(slot) else {
            return unsent_answer(segment);
        };
        let sealed = set.seal::<S>(slot, segment, out);
        self.slots.set(slot, Some(set));
        let bytes = sealed?;
        Ok(Sent {
            bytes,
            carrier: Carrier::By(slot),
        })
    }

    // The sending questions.
    #[tactic(auto, unfolding(crate::specs::Emitting::emitted))]
    fn transmit<S: Suite>(
        &mut self,
        port: u16,
        carrier: Carrier,
        segment: &[u8],
        out: &mut [u8],
    ) -> Result<Sent, Fault>
        ensures { (self.new, result, out.new) ≡ leaves (emitted S.Suite.macs port carrier segment.now (length out.old) self.old) out.old }
    {
        match carrier {
            Carrier::Clear => copy_clear(port, segment, out),
            Carrier::By(slot) => self.transmit_by::<S>(slot, segment, out),
            Carrier::Nothing => unsent_answer(segment),
        }
    }

    // Sends the challenge, and makes the set for its response. It takes no Origin: the address is the
    // procedure's own. `taken` is the one bit of the rest of the table, as in Origin.
    #[tactic(auto, unfolding(crate::specs::Sending::challenged, esp::specs::Asking::asked))]
    pub fn challenge<S: Suite>(
        &mut self,
        service: Service,
        taken: bool,
        ik: &Ik,
        segment: &[u8],
        out: &mut [u8],
    ) -> Result<Sent, Fault>
        ensures { (self.new, result, out.new) ≡ leaves (challenged S.Suite.macs service taken ik.now segment.now (length out.old) self.old) out.old }
    {
        match self.stage {
            Stage::Offered { procedure, .. } => {
                if !self.cover_stands(procedure.cover) {
                    self.end();
                    return Err(Fault::CoverGone(Phase::Offered));
                }
                if taken {
                    self.end();
                    return Err(Fault::PairInUse(Phase::Offered));
                }
                let sent = self.transmit::<S>(
                    service.port,
                    Carrier::from(procedure.cover),
                    segment,
                    out,
                )?;
                let set = Set::new(
                    parameters_of(ik, &procedure),
                    u64::from(service.clock) + PATIENCE,
                );
                self.slots.registration = Some(set);
                self.stage = Stage::Challenged { procedure };
                Ok(sent)
            }
            Stage::None | Stage::Challenged { .. } | Stage::Answered { .. } => {
                Err(Fault::WrongStage(self.stage.phase()))
            }
        }
    }

    // Sends the news of a failure, and ends the procedure.
    fn fail<S: Suite>(
        &mut self,
        service: Service,
        carrier: Carrier,
        segment: &[u8],
        out: &mut [u8],
    ) -> Result<Sent, Fault>
        ensures { (self.new, result, out.new) ≡ leaves (failed_by S.Suite.macs service carrier segment.now (length out.old) self.old) out.old }
    {
        let sent = self.transmit::<S>(service.port, carrier, segment, out)?;
        self.end();
        Ok(sent)
    }

    // Sends the outcome of a procedure, and ends it.
    #[tactic(auto, unfolding(crate::specs::Sending::concluded, esp::specs::Asking::asked))]
    pub fn conclude<S: Suite>(
        &mut self,
        service: Service,
        outcome: Outcome,
        segment: &[u8],
        out: &mut [u8],
    ) -> Result<Sent, Fault>
        ensures { (self.new, result, out.new) ≡ leaves (concluded S.Suite.macs service outcome segment.now (length out.old) self.old) out.old }
    {
        match (self.stage, outcome) {
            (Stage::Answered { procedure }, Outcome::Success { timer, mask }) => {
                if !terms_right(timer, mask) {
                    return Err(Fault::BadTerms(Phase::Answered));
                }
                let sent = self.transmit_by::<S>(Slot::Registration, segment, out)?;
                let expiry = self.slots.latest(expiry_after(service.clock, timer));
                self.slots.succeed(procedure.cover, expiry);
                self.mask = mask;
                self.stage = Stage::None;
                Ok(sent)
            }
            (Stage::Answered { procedure }, Outcome::UserFailure) => {
                self.fail::<S>(service, user_failure_carrier(procedure.cover), segment, out)
            }
            (
                Stage::Offered { procedure, .. }
                | Stage::Challenged { procedure }
                | Stage::Answered { procedure },
                Outcome::OtherFailure,
            ) => self.fail::<S>(service, Carrier::from(procedure.cover), segment, out),
            (Stage::None, _)
            | (
                Stage::Offered { .. } | Stage::Challenged { .. },
                Outcome::Success { .. } | Outcome::UserFailure,
            ) => { Err(Fault::WrongStage(self.stage.phase())) }
        }
    }

    // Sends a message by the set that carries traffic.
    #[tactic(auto, unfolding(crate::specs::Sending::sent))]
    pub fn send<S: Suite>(&mut self, segment: &[u8], out: &mut [u8]) -> Result<Sent, Fault>
        ensures { (self.new, result, out.new) ≡ leaves (sent S.Suite.macs segment.now (length out.old) self.old) out.old }
    {
        let slot = self.traffic_slot().ok_or(association::Fault::NoTraffic)?;
        self.transmit_by::<S>(slot, segment, out)
    }
}
