//! Laws of the definitions, each the contract of a function that does nothing.
ghost use Rattle.std.specs.Prelude.{◌≡◌, List, length, ℕ};
ghost use Rattle.pfr_headers.specs.ErrorLaws.{EmbeddedEchoStillVerifies, EmbeddedHeaderStillVerifies, EmbeddedNoChecksumStays, EmbeddedUdpStillVerifies, RewrittenErrorIsTranslated};
ghost use Rattle.pfr_headers.specs.Laws.{HeaderStillVerifies, IcmpStillVerifies, MendedUdpVerifies, MendedVerifies, NoChecksumStays, OtherBytesStay, RewrittenIsTranslated, SameEndChangesNothing, TcpStillVerifies, UdpStillVerifies};
ghost use Rattle.pfr_headers.specs.declared.packet.View.{View};
ghost use Rattle.pfr_headers.specs.declared.packet.View.TheVariants.{Ipv4};
ghost use Rattle.pfr_headers.specs.declared.change.Change.{Change};
ghost use Rattle.pfr_headers.specs.Rewriting.{rewritten};
ghost use Rattle.pfr_headers.specs.View.{IsView, view_of};

/// A frame has exactly one view, the one that the function computes.
pub fn one_view()
    ensures only { (link : ℕ) (bytes : List ℕ) (v : View) → IsView link bytes v → v ≡ view_of link bytes }
    ensures some { (link : ℕ) (bytes : List ℕ) → IsView link bytes (view_of link bytes) }
{}

/// An IPv4 header whose checksum verifies still does after its packet was rewritten, whatever the checksum was, 0 and
/// 65535 among them.
pub fn header_still_verifies()
    ensures { HeaderStillVerifies }
{}

/// A checksum that verifies still does after words under it changed and it was mended for them: their sum goes from
/// `rest` to `rest'`, but for multiples of 65535. The one exception: all words come out as 0, the checksum among them,
/// and their sum is 0. UDP has no exception, since a checksum of 0 says there that there is none.
pub fn checksums_still_verify()
    ensures any { MendedVerifies }
    ensures udp { MendedUdpVerifies }
{}

/// A frame keeps its length when its packet is rewritten. Only the address, the port or identifier of the translated
/// end and the checksums over them change; every other byte stays. The TCP checksum of a packet that an error embeds
/// stays too.
pub fn the_rest_stays()
    ensures length { (link : ℕ) (bytes : List ℕ) (change : Change) → view_of link bytes ≡ Ipv4 change.packet → length (rewritten link change bytes) ≡ length bytes }
    ensures bytes { OtherBytesStay }
{}

/// The checksum of what a packet carries still verifies after the packet was rewritten: TCP's, UDP's if there is one
/// (if there is none, there is none afterwards), and ICMP's, which in an error is over the embedded packet too. The
/// exceptions are an ICMP message of which all words come out as 0, and an error whose total length ends before what is
/// translated in it.
pub fn carried_checksums_still_verify()
    ensures tcp { TcpStillVerifies }
    ensures udp { UdpStillVerifies }
    ensures udp_without { NoChecksumStays }
    ensures icmp { IcmpStillVerifies }
{}

/// A packet stays the same, byte for byte, if an end is rewritten to what stands there already.
pub fn what_stands_there_changes_nothing()
    ensures { SameEndChangesNothing }
{}

/// What is written is what is judged: a packet that embeds no other is seen, once it is rewritten, as the packet behind
/// its translation.
pub fn what_is_written_is_the_translated_packet()
    ensures { RewrittenIsTranslated }
{}

/// An ICMP error that embeds a packet is seen, once it is rewritten, as the error about the translated packet. The
/// embedded packet has the new address at its other end, with the new port or identifier. The error's own address at
/// the translated end becomes the new one too if it is the same. All else of both is as before.
pub fn what_is_written_is_the_translated_error()
    ensures { RewrittenErrorIsTranslated }
{}

/// The checksums of the packet that an error embeds still verify after the error was rewritten: its IPv4 header's,
/// UDP's if there is one (if there is none, there is none afterwards), and an echo's, unless all words come out as 0.
/// The last two are over what the embedded packet carries by its own lengths, which must hold its first 8 bytes, as far
/// as it was captured. A TCP checksum stays as it is.
pub fn embedded_checksums_still_verify()
    ensures header { EmbeddedHeaderStillVerifies }
    ensures udp { EmbeddedUdpStillVerifies }
    ensures udp_without { EmbeddedNoChecksumStays }
    ensures echo { EmbeddedEchoStillVerifies }
{}
