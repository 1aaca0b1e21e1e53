// A packet from the handset, on the row that has its set.
ghost use Rattle.registration.specs.Receiving.{admitted, heard, heard_of, in_mask, opening_on, ordinary_on, received, response_on, settled_on, shown_segment};
ghost use Rattle.slots.specs.Numbers.{slot_cover};
ghost use Rattle.std.specs.Prelude.{◌≡◌};

use crate::origin::Origin;
use crate::row::Row;
use esp::{Segment, Suite};
use procedure::{Arrived, Chosen, Fault, Message, Offer, Stage};
use slots::{Cover, Slot};

// Whether an IMPU is in a mask.
fn in_mask(mask: u16, impu: u8) -> bool
    ensures { result ≡ in_mask mask impu }
{
    impu < 16 && (mask >> impu) % 2 == 1
}

impl Row {
    // Traffic on the current set shows that the handset has taken it into use: the old one goes.
    fn settle(&mut self, slot: Slot)
        ensures { self.new ≡ settled_on slot self.old }
    {
        match slot {
            Slot::Current => self.slots.old = None,
            Slot::Old | Slot::Registration => {}
        }
    }

    // Opens a packet by the set in a slot. What its window recorded is kept, whatever comes of the packet.
    #[tactic(auto, unfolding(crate::specs::Receiving::admitted))]
    fn admit<'a, S: Suite>(
        &mut self,
        slot: Slot,
        port: u16,
        packet: &'a [u8],
    ) -> Result<Segment<'a>, Fault>
        ensures { (self.new, shown_segment result) ≡ admitted S.Suite.macs port packet.now slot self.old }
    {
        let mut set = self.slots.get(slot).ok_or(association::Fault::NoSet)?;
        let opened = set.open::<S>(port, packet);
        self.slots.set(slot, Some(set));
        Ok(opened?)
    }

    // An opening REGISTER on a slot.
    #[tactic(auto, unfolding(esp::specs::Asking::asked))]
    fn hear_opening(
        &mut self,
        origin: Origin,
        slot: Slot,
        named: u32,
        offer: Offer,
    ) -> Result<Option<Chosen>, Fault>
        ensures { (self.new, result) ≡ opening_on (slot_cover slot) origin.service origin.subscriber origin.taken origin.address slot named offer self.old }
    {
        let cover = Cover::try_from(slot).map_err(association::Fault::WrongSlot)?;
        if named != u32::from(origin.subscriber) {
            return Err(association::Fault::NotHis(slot).into());
        }
        let chosen = self.enter(origin, offer, cover)?;
        self.settle(slot);
        Ok(Some(chosen))
    }

    // The response to the challenge, on a slot.
    #[tactic(auto, unfolding(esp::specs::Asking::asked))]
    fn hear_response(&mut self, slot: Slot, offer: Offer) -> Result<Option<Chosen>, Fault>
        ensures { (self.new, result) ≡ response_on slot offer self.old }
    {
        if slot != Slot::Registration {
            return Err(association::Fault::WrongSlot(slot).into());
        }
        match self.stage {
            Stage::Challenged { procedure } => {
                if offer != procedure.offer {
                    self.end();
                    return Err(association::Fault::OtherOffer.into());
                }
                self.stage = Stage::Answered { procedure };
                Ok(None)
            }
            Stage::None | Stage::Offered { .. } | Stage::Answered { .. } => {
                Err(Fault::WrongStage(self.stage.phase()))
            }
        }
    }

    // An ordinary message on a slot.
    #[tactic(auto, unfolding(esp::specs::Asking::asked))]
    fn hear_ordinary(&mut self, slot: Slot, impu: u8) -> Result<Option<Chosen>, Fault>
        ensures { (self.new, result) ≡ ordinary_on (slot_cover slot) slot impu self.old }
    {
        Cover::try_from(slot).map_err(association::Fault::WrongSlot)?;
        if !in_mask(self.mask, impu) {
            return Err(association::Fault::NotHis(slot).into());
        }
        self.settle(slot);
        Ok(None)
    }

    // What a message does, once its packet is opened.
    #[tactic(auto, unfolding(crate::specs::Receiving::heard))]
    fn hear(
        &mut self,
        origin: Origin,
        slot: Slot,
        message: Message,
    ) -> Result<Option<Chosen>, Fault>
        ensures { (self.new, result) ≡ heard origin.service origin.subscriber origin.taken origin.address slot message self.old }
    {
        match message {
            Message::Opening {
                subscriber: named,
                offer,
            } => self.hear_opening(origin, slot, named, offer),
            Message::Response { offer } => self.hear_response(slot, offer),
            Message::Ordinary { impu } => self.hear_ordinary(slot, impu),
        }
    }

    // A packet to one of the subscriber's sets.
    #[tactic(auto, unfolding(crate::specs::Receiving::received))]
    pub fn receive<'a, S: Suite>(
        &mut self,
        origin: Origin,
        spi: u32,
        packet: &'a [u8],
        message: Message,
    ) -> Result<Arrived<'a>, Fault>
        ensures { (self.new, heard_of result) ≡ received S.Suite.macs origin.service origin.subscriber origin.taken origin.address spi packet.now message self.old }
    {
        let slot = self
            .slot_for(origin.address, spi)
            .ok_or(association::Fault::NoSet)?;
        let segment = self.admit::<S>(slot, origin.service.port, packet)?;
        let chosen = self.hear(origin, slot, message)?;
        Ok(Arrived {
            subscriber: u32::from(origin.subscriber),
            slot,
            segment,
            chosen,
        })
    }
}
