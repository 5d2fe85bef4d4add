//! A TCP segment between the two ends of its connection.
ghost use Rattle.std.specs.Prelude.{◌≡◌, ◌≤◌, ◌<◌};
ghost use Rattle.pfr_track.specs.Tcp as spec;

use crate::sequence::Sequence;
use crate::tcp::{TcpPeer, TcpPeerState};
use pfr_headers::TcpHeader;

const FIN: u8 = 1;

const SYN: u8 = 2;

const RST: u8 = 4;

const ACK: u8 = 16;

/// How many bytes an acknowledgement may be behind what the other end has sent, before scaling, or ahead of it: the
/// greatest window and a longest packet.
const FARTHEST: u32 = 67035;

fn has(flag: u8, header: &TcpHeader) -> bool
    ensures { result ≡ spec.has flag header.now }
{
    header.flags.are(flag, flag)
}

pub(crate) fn is_syn(header: &TcpHeader) -> bool
    ensures { result ≡ spec.is_syn header.now }
{
    has(SYN, header)
}

fn is_fin(header: &TcpHeader) -> bool
    ensures { result ≡ spec.is_fin header.now }
{
    has(FIN, header)
}

fn is_rst(header: &TcpHeader) -> bool
    ensures { result ≡ spec.is_rst header.now }
{
    has(RST, header)
}

pub(crate) fn is_ack(header: &TcpHeader) -> bool
    ensures { result ≡ spec.is_ack header.now }
{
    has(ACK, header)
}

/// The factor of a window with this shift; a shift above 14 counts as 14.
#[tactic(auto, using(crate::proofs::Factors::factor_is_small))]
fn factor(shift: u8) -> u16
    ensures value { result ≡ spec.factor shift }
    ensures least { 0 < result }
    ensures most { result ≤ 16384 }
{
    1 << shift.min(14)
}

fn scaled(window: u32, shift: u8) -> u32
    requires { window ≤ 67035 }
    ensures { result ≡ spec.scaled window shift }
{
    window * u32::from(factor(shift))
}

/// The window that a scaled one stands for, rounded up.
fn unscaled(window: u16, shift: u8) -> u16
    ensures { result ≡ spec.unscaled window shift }
{
    window.div_ceil(factor(shift))
}

/// The places that a segment takes, but for its FIN.
fn places(header: &TcpHeader) -> u32
    ensures value { result ≡ spec.places header.now }
    ensures few { result ≤ 65536 }
{
    u32::from(header.payload_length) + u32::from(is_syn(header))
}

/// What a segment says. The steps of the tracking adjust it one after the other.
#[derive(Clone, Copy)]
pub(crate) struct Segment {
    pub sequence: Sequence,
    /// The number behind its bytes.
    pub data_end: Sequence,
    /// The number behind its FIN.
    pub end: Sequence,
    pub acknowledgement: Sequence,
    pub window: u16,
    /// The shift of its window.
    pub sender_shift: u8,
    /// The shift of the other end's windows.
    pub receiver_shift: u8,
}

/// A segment between its sender and the other end, both as the segment would leave them.
#[derive(Clone, Copy)]
pub(crate) struct Exchange {
    pub sender: TcpPeer,
    pub receiver: TcpPeer,
    pub segment: Segment,
}

impl Exchange {
    /// A segment as its header has it.
    #[tactic(auto, unfolding(crate::specs::Tcp::begun))]
    fn begin(sender: TcpPeer, receiver: TcpPeer, header: &TcpHeader) -> Exchange
        ensures { result ≡ spec.begun sender receiver header.now }
    {
        let sequence = Sequence(header.sequence);
        let places = places(header);
        let (sender_shift, receiver_shift) = match (sender.scale, receiver.scale) {
            (Some(sender), Some(receiver)) if !is_syn(header) => (sender, receiver),
            _ => (0, 0),
        };
        Exchange {
            sender,
            receiver,
            segment: Segment {
                sequence,
                data_end: sequence.plus(places),
                end: sequence.plus(places + u32::from(is_fin(header))),
                acknowledgement: Sequence(header.acknowledgement),
                window: header.window,
                sender_shift,
                receiver_shift,
            },
        }
    }

    /// Settles the scales if the segment is a SYN that answers an offer.
    fn settle(&mut self, header: &TcpHeader)
        ensures { self.new ≡ spec.with_scales header.now self.old }
    {
        if !is_syn(header) {
            return;
        }
        let Some(other) = self.receiver.scale else {
            return;
        };
        match header.window_scale {
            None => {
                self.receiver.greatest_window = self
                    .receiver
                    .greatest_window
                    .saturating_mul(factor(other));
                self.receiver.scale = None;
            }
            Some(own) => {
                self.sender.scale = Some(own);
                self.segment.window = unscaled(self.segment.window, own);
                self.segment.sender_shift = own;
                self.segment.receiver_shift = other;
            }
        }
    }

    /// Takes the segment as the first one that is seen of the sender's end.
    #[tactic(auto, unfolding(crate::specs::Tcp::first_seen))]
    fn see_first(&mut self)
        ensures { self.new ≡ spec.first_seen self.old }
    {
        let window = scaled(
            u32::from(self.receiver.greatest_window),
            self.segment.receiver_shift,
        );
        let reach = self.segment.end.plus(window.max(1));
        if self.sender.high.0 == 1 || reach.is_at_least(self.sender.high) {
            self.sender.high = reach;
        }
        self.sender.state = TcpPeerState::SynSent;
        self.sender.low = self.segment.sequence;
        self.sender.greatest_window = self.sender.greatest_window.max(self.segment.window);
    }

    /// Opens the sender's end if this is its first segment.
    #[tactic(auto, unfolding(crate::specs::Tcp::opened))]
    fn open(&mut self, header: &TcpHeader)
        ensures { self.new ≡ spec.opened header.now self.old }
    {
        if !self.sender.state.is_at_least(TcpPeerState::SynSent) {
            self.settle(header);
            self.see_first();
        }
    }

    /// Takes what the other end has sent as acknowledged if the segment acknowledges nothing, or an end of which
    /// nothing was seen.
    #[tactic(auto, unfolding(crate::specs::Tcp::acknowledged))]
    fn acknowledge(&mut self, header: &TcpHeader)
        ensures { self.new ≡ spec.acknowledged header.now self.old }
    {
        let resets = self.segment.acknowledgement.0 == 0 && is_rst(header);
        let knows = self.receiver.state.is_at_least(TcpPeerState::SynSent);
        if !is_ack(header) || resets || !knows {
            self.segment.acknowledgement = self.receiver.low;
        }
    }

    /// Takes a segment without places as standing where its sender is.
    #[tactic(auto, unfolding(crate::specs::Tcp::eased))]
    fn ease(&mut self)
        ensures { self.new ≡ spec.eased self.old }
    {
        if self.segment.sequence.0 == self.segment.end.0 {
            self.segment.sequence = self.sender.low;
            self.segment.end = self.sender.low;
            self.segment.data_end = self.sender.low;
        }
    }

    /// A segment between two ends, ready for the test of its window.
    #[tactic(auto, unfolding(crate::specs::Tcp::prepared))]
    pub fn of(sender: TcpPeer, receiver: TcpPeer, header: &TcpHeader) -> Exchange
        ensures { result ≡ spec.prepared sender receiver header.now }
    {
        let mut exchange = Exchange::begin(sender, receiver, header);
        exchange.open(header);
        exchange.acknowledge(header);
        exchange.ease();
        exchange
    }

    fn acknowledges_near(&self) -> bool
        ensures { result ≡ spec.acknowledges_near self.now }
    {
        let behind = self.receiver.low.since(self.segment.acknowledgement);
        if behind < 2147483648 {
            behind <= scaled(FARTHEST, self.segment.sender_shift)
        } else {
            u32::MAX - behind < FARTHEST
        }
    }

    /// Whether the segment lies within the windows.
    #[tactic(auto, unfolding(crate::specs::Tcp::fits))]
    pub fn fits(&self) -> bool
        ensures { result ≡ spec.fits self.now }
    {
        let window = scaled(
            u32::from(self.receiver.greatest_window),
            self.segment.receiver_shift,
        );
        self.sender.high.is_at_least(self.segment.data_end)
            && self
                .segment
                .sequence
                .is_at_least(self.sender.low.minus(window))
            && self.acknowledges_near()
    }

    /// Moves both ends by a segment that fits.
    #[tactic(auto, unfolding(crate::specs::Tcp::moved))]
    pub fn advance(&mut self)
        ensures { self.new ≡ spec.moved self.old }
    {
        let window = scaled(u32::from(self.segment.window), self.segment.sender_shift);
        let segment = self.segment;
        self.sender.greatest_window = self.sender.greatest_window.max(segment.window);
        if segment.end.is_at_least(self.sender.low) {
            self.sender.low = segment.end;
        }
        if segment
            .acknowledgement
            .plus(window)
            .is_at_least(self.receiver.high)
        {
            self.receiver.high = segment.acknowledgement.plus(window.max(1));
        }
    }

    /// Raises the states of both ends by a segment's flags.
    #[tactic(auto, unfolding(crate::specs::Tcp::raised))]
    pub fn raise(&mut self, header: &TcpHeader)
        ensures { self.new ≡ spec.raised header.now self.old }
    {
        if is_syn(header) {
            self.sender.state = self.sender.state.raised_to(TcpPeerState::SynSent);
        }
        if is_fin(header) {
            self.sender.state = self.sender.state.raised_to(TcpPeerState::Closing);
        }
        if is_ack(header) {
            self.receiver.state = self.receiver.state.acknowledged();
        }
        if is_rst(header) {
            self.sender.state = TcpPeerState::TimeWait;
            self.receiver.state = TcpPeerState::TimeWait;
        }
    }
}

/// The end that sends the first segment of a connection.
#[tactic(auto, unfolding(crate::specs::Tcp::maker))]
pub(crate) fn maker(header: &TcpHeader) -> TcpPeer
    ensures { result ≡ spec.maker header.now }
{
    let sequence = Sequence(header.sequence);
    let scale = if is_syn(header) {
        header.window_scale
    } else {
        None
    };
    let places = places(header) + u32::from(is_fin(header));
    TcpPeer {
        state: TcpPeerState::SynSent,
        low: sequence,
        high: sequence.plus(places + 1),
        greatest_window: unscaled(header.window.max(1), scale.unwrap_or(0)),
        scale,
    }
}

/// The other end, of which nothing was seen.
pub(crate) fn unseen() -> TcpPeer
    ensures { result ≡ spec.unseen }
{
    TcpPeer {
        state: TcpPeerState::Closed,
        low: Sequence(0),
        high: Sequence(1),
        greatest_window: 1,
        scale: None,
    }
}
