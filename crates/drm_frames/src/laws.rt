//! Laws of the grammar. Each function is its contract; calling it does nothing.
ghost use Rattle.std.specs.Prelude.{◌≡◌, ◌^◌, ◌<◌, ◌++◌, List, None, Some, is_some, length, true, ℕ};
ghost use Rattle.std.specs.List.{flat_map, AllByRecursion};
ghost use Rattle.drm_frames.specs.Answers.{FitsFields, IsAnswer, CallResult, Tells, answer_in, answer_frame, answer_text};
ghost use Rattle.drm_frames.specs.Decoding.{Decodes, ReadsAs};
ghost use Rattle.drm_frames.specs.Grammar.{FrameValue, frame_text, IsFrame, IsPart};
ghost use Rattle.drm_frames.specs.Hellos.{Greets, IsHello, IsToken, is_version, hello_in, hello_frame, hello_text};
ghost use Rattle.drm_frames.specs.Number.{AreBytes, u16, u16_in, u32, u32_in, u64, u64_in};
ghost use Rattle.drm_frames.specs.Requests.{Asks, HasRow, IsRowCall, WritesCall, request_of};
ghost use Rattle.drm_table.specs.Table.{call_number, row_of};
ghost use Rattle.drm_frames.specs.declared.decoding.Decoded.{Decoded as ADecoded};
ghost use Rattle.drm_frames.specs.declared.hello.Hello.{Hello as AHello};
ghost use Rattle.drm_table.specs.declared.calls.Call.{Call as ACall};

/// A number that is written is read again, whatever follows it.
pub fn numbers_read_back()
    ensures two_bytes { (n : ℕ) (rest : List ℕ) → n < 2 ^ 16 → u16_in (u16 n ++ rest) ≡ n }
    ensures four_bytes { (n : ℕ) (rest : List ℕ) → n < 2 ^ 32 → u32_in (u32 n ++ rest) ≡ n }
    ensures eight_bytes { (n : ℕ) (rest : List ℕ) → n < 2 ^ 64 → u64_in (u64 n ++ rest) ≡ n }
{}

/// A number that is read from a field's bytes is written as the same bytes.
pub fn numbers_written_back()
    ensures two_bytes { (bytes : List ℕ) → length bytes ≡ 2 → AreBytes bytes
        → u16 (u16_in bytes) ≡ bytes }
    ensures four_bytes { (bytes : List ℕ) → length bytes ≡ 4 → AreBytes bytes
        → u32 (u32_in bytes) ≡ bytes }
    ensures eight_bytes { (bytes : List ℕ) → length bytes ≡ 8 → AreBytes bytes
        → u64 (u64_in bytes) ≡ bytes }
{}

/// No text of a frame begins another, so bytes have at most one frame at their front.
pub fn no_text_begins_another()
    ensures { (f g : FrameValue) (x y : List ℕ) → IsFrame f → IsFrame g
        → frame_text f ++ x ≡ frame_text g ++ y → (f ≡ g) × (x ≡ y) }
{}

/// Bytes are whole frames, and then less than a frame, in one way.
pub fn one_reading()
    ensures { (fs gs : List FrameValue) (x y : List ℕ) → AllByRecursion IsFrame fs
        → AllByRecursion IsFrame gs → IsPart x → IsPart y
        → flat_map frame_text fs ++ x ≡ flat_map frame_text gs ++ y → (fs ≡ gs) × (x ≡ y) }
{}

/// At the front of bytes is one thing only: a frame, less than a frame, or a length that no frame has.
pub fn one_decoding()
    ensures { (bytes : List ℕ) (d e : ADecoded) → Decodes bytes d → Decodes bytes e → d ≡ e }
{}

/// The text of a frame is found at its place.
pub fn texts_are_found()
    ensures { (f : FrameValue) → IsFrame f → ReadsAs (frame_text f) f }
{}

/// A frame asks the call that is found in it.
pub fn each_frame_asks()
    ensures { (f : FrameValue) → IsFrame f → Asks f (request_of f) }
{}

/// The call of a frame is found, so the frame asks no other.
pub fn one_call()
    ensures { (f : FrameValue) (call : ACall) → IsFrame f → Asks f call → request_of f ≡ call }
{}

/// The numbers with a row, and the number of each row's call, are those of the table of calls.
pub fn rows_of_the_table()
    ensures has { (n : ℕ) → HasRow n → is_some (row_of n) ≡ true }
    ensures no_other { (n : ℕ) → (HasRow n → ⊥) → row_of n ≡ None }
    ensures number { (f : FrameValue) (call : ACall) → IsRowCall call f
        → f.number ≡ call_number call }
{}

/// A row's call has one frame.
pub fn one_frame()
    ensures fits { (f : FrameValue) (call : ACall) → IsRowCall call f → IsFrame f }
    ensures one { (f g : FrameValue) (call : ACall) → IsRowCall call f → IsRowCall call g → f ≡ g }
{}

/// The hello that is found in a frame is the frame's. If none is found, the frame has none.
pub fn each_frame_greets()
    ensures { (f : FrameValue) → IsFrame f → Greets f (hello_in f) }
{}

/// A frame's hello is found, so it has no other.
pub fn one_hello()
    ensures { (f : FrameValue) (hello : AHello) → IsHello f hello → hello_in f ≡ Some hello }
{}

/// The result that is found in a frame is the frame's. If none is found, the frame has none.
pub fn each_frame_tells()
    ensures { (f : FrameValue) → IsFrame f → Tells f (answer_in f) }
{}

/// A frame's result is found, so it has no other.
pub fn one_result()
    ensures { (f : FrameValue) (outcome : CallResult) → IsAnswer f outcome
        → answer_in f ≡ Some outcome }
{}

/// A call that is encoded is read back.
pub fn calls_read_back()
    ensures { (call : ACall) (text : List ℕ) → WritesCall call text
        → (f : FrameValue) × ReadsAs text f × (request_of f ≡ call) }
{}

/// A hello that is encoded is read back.
pub fn hellos_read_back()
    ensures { (hello : AHello) → is_version hello.version ≡ true → IsToken hello.lease
        → ReadsAs (hello_text hello) (hello_frame hello)
        × (hello_in (hello_frame hello) ≡ Some hello) }
{}

/// A result that is encoded is read back.
pub fn answers_read_back()
    ensures { (outcome : CallResult) → FitsFields outcome
        → ReadsAs (answer_text outcome) (answer_frame outcome)
        × (answer_in (answer_frame outcome) ≡ Some outcome) }
{}
