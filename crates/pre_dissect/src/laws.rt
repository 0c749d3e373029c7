ghost use Rattle.std.specs.Prelude.{◌<◌, ℕ, List, length, All};
ghost use Rattle.pre_pcap.specs.Records.{PacketRecord};
ghost use Rattle.pre_pcap.specs.Written.{CanBeWritten};
ghost use Rattle.pre_receive.specs.Takings.{Taking};
ghost use Rattle.pre_history.specs.Scenario.{Scenario};
ghost use Rattle.pre_history.specs.History.{History};
ghost use Rattle.pre_history.specs.Legal.{Legal, LegalUpTo, FirstAliasAt};
ghost use Rattle.pre_dissect.specs.Captured.{CaptureOf, Recorded};
ghost use Rattle.pre_dissect.specs.Dissections.{arrivals_in, AreTaken, DissectText};
ghost use Rattle.pre_dissect.specs.Fronts.{FilesFit};
ghost use Rattle.pre_dissect.specs.Results.{StoreCapture, TellResults, TextTells};

/// The dissection of the capture of an arc in a legal history tells the result of each `arrive` event of the arc, other than
/// `lost`: the receiver answers it to the record of that mPacket. It is so for any receiver (`results`), and for the text of a
/// dissected file, where the history is legal to its end (`whole`) or up to the first alias (`before`). What is recorded always has
/// room in the file's numbers (`fits`, `fits_before`).
pub fn dissect_law()
    ensures results { (w : Scenario) (n : ℕ) (h : History) (a : ℕ) → a < length w.net.arcs → LegalUpTo w n h → (records : List PacketRecord) (takings : List Taking)
        → StoreCapture w h a records → AreTaken (arrivals_in records) takings → TellResults w h a takings }
    ensures fits { (w : Scenario) (h : History) (a : ℕ) → a < length w.net.arcs → FilesFit w → Legal w h → All CanBeWritten (Recorded w h a) }
    ensures whole { (w : Scenario) (h : History) (a : ℕ) → a < length w.net.arcs → FilesFit w → Legal w h → (text : List ℕ) → DissectText (CaptureOf w h a) text → TextTells w h a text }
    ensures fits_before { (w : Scenario) (h : History) (a t b i : ℕ) → a < length w.net.arcs → FilesFit w → FirstAliasAt w h t b i → All CanBeWritten (Recorded w h a) }
    ensures before { (w : Scenario) (h : History) (a t b i : ℕ) → a < length w.net.arcs → FilesFit w → FirstAliasAt w h t b i
        → (text : List ℕ) → DissectText (CaptureOf w h a) text → TextTells w h a text }
{
    pre_history::arrivals_are_read();
    pre_mpacket::one_given();
    pre_pcap::one_capture();
    pre_pcap::read_back();
}
