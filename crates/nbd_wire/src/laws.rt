//! Laws of the grammar, over all texts.

ghost use Rattle.std.specs.Prelude.{◌≡◌, ◌≤◌, ◌<◌, ◌+◌, ◌*◌, ◌^◌, ◌++◌, ℕ, Bool, true, List, [], length, take, drop};
ghost use Rattle.nbd_wire.specs.declared.Kind.{Kind};
ghost use Rattle.nbd_wire.specs.declared.writing.ReplyType.{ReplyType};
ghost use Rattle.nbd_wire.specs.Chunks.{chunk, data_chunk, done_chunk, error_chunk, hole_chunk};
ghost use Rattle.nbd_wire.specs.Contexts.{FitExtents, IsQuery, context_data, extents_text, status_chunk, status_head};
ghost use Rattle.nbd_wire.specs.Grammar.{Message, IsFrame};
ghost use Rattle.nbd_wire.specs.Numbers.{bytes};
ghost use Rattle.nbd_wire.specs.Reading.{wanted as bytes_wanted, whole_len as len_of_whole};
ghost use Rattle.nbd_wire.specs.Replies.{IsInfo, Puts, block_size_info, export_info, export_reply, option_reply, server_data, simple_reply_head};

use crate::chunks::ChunkType;
use crate::contexts::MetaContext;

/// No frame of a phase begins another of that phase, and none says two things: a text has at most
/// one first frame.
pub fn one_first_frame()
    ensures { (kind : Kind) (m n : Message) (a b x y : List ℕ) → IsFrame kind m a → IsFrame kind n b
        → a ++ x ≡ b ++ y → (a ≡ b) × (m ≡ n) }
{}

/// The data of INFO and GO has one name.
pub fn one_name()
    ensures { (text name other types also : List ℕ) → IsInfo text name types → IsInfo text other also → name ≡ other }
{}

/// The data of LIST_META_CONTEXT and SET_META_CONTEXT has one name and one list of queries.
pub fn one_query()
    ensures { (text name other : List ℕ) (queries also : List (List ℕ)) → IsQuery text name queries → IsQuery text other also
        → (name ≡ other) × (queries ≡ also) }
{}

/// No reply begins another that may stand in its place, and none says two things: what is sent tells a client where each reply
/// ends, and what it is. How much data a simple reply has is told by the request.
pub fn one_first_reply()
    ensures options { (option other : ℕ) (reply also : ReplyType) (a b x y : List ℕ) → option < 2 ^ 32 → other < 2 ^ 32
        → length a < 2 ^ 32 → length b < 2 ^ 32 → option_reply option reply a ++ x ≡ option_reply other also b ++ y
        → (option ≡ other) × (reply ≡ also) × (a ≡ b) × (x ≡ y) }
    ensures names { (a b x y : List ℕ) → length a < 2 ^ 32 → length b < 2 ^ 32 → server_data a ++ x ≡ server_data b ++ y
        → (a ≡ b) × (x ≡ y) }
    ensures contexts { (id other : ℕ) (name also : List ℕ) → id < 2 ^ 32 → other < 2 ^ 32 → context_data id name ≡ context_data other also
        → (id ≡ other) × (name ≡ also) }
    ensures information { (size other flags also : ℕ) (x y : List ℕ) → size < 2 ^ 64 → other < 2 ^ 64 → flags < 2 ^ 16 → also < 2 ^ 16
        → export_info size flags ++ x ≡ export_info other also ++ y → (size ≡ other) × (flags ≡ also) × (x ≡ y) }
    ensures sizes { (least preferred most also other last : ℕ) (x y : List ℕ) → least < 2 ^ 32 → preferred < 2 ^ 32 → most < 2 ^ 32
        → also < 2 ^ 32 → other < 2 ^ 32 → last < 2 ^ 32 → block_size_info least preferred most ++ x ≡ block_size_info also other last ++ y
        → (least ≡ also) × (preferred ≡ other) × (most ≡ last) × (x ≡ y) }
    ensures exports { (size other flags also : ℕ) (no_zeroes : Bool) (x y : List ℕ) → size < 2 ^ 64 → other < 2 ^ 64 → flags < 2 ^ 16
        → also < 2 ^ 16 → export_reply size flags no_zeroes ++ x ≡ export_reply other also no_zeroes ++ y
        → (size ≡ other) × (flags ≡ also) × (x ≡ y) }
    ensures requests { (error other cookie also : ℕ) (x y : List ℕ) → error < 2 ^ 32 → other < 2 ^ 32 → cookie < 2 ^ 64 → also < 2 ^ 64
        → simple_reply_head error cookie ++ x ≡ simple_reply_head other also ++ y → (error ≡ other) × (cookie ≡ also) × (x ≡ y) }
{}

/// No chunk begins another, none says two things, and none begins as a simple reply does. The chunks that are written are chunks of these types with this data.
pub fn one_first_chunk()
    ensures chunks { (is_last ends : Bool) (kind other : ChunkType) (cookie also : ℕ) (a b x y : List ℕ) → cookie < 2 ^ 64 → also < 2 ^ 64
        → length a < 2 ^ 32 → length b < 2 ^ 32 → chunk is_last kind cookie a ++ x ≡ chunk ends other also b ++ y
        → (is_last ≡ ends) × (kind ≡ other) × (cookie ≡ also) × (a ≡ b) × (x ≡ y) }
    ensures simple { (is_last : Bool) (kind : ChunkType) (cookie error also : ℕ) (a x y : List ℕ) → chunk is_last kind cookie a ++ x ≡ simple_reply_head error also ++ y → ⊥ }
    ensures reads { (is_last : Bool) (cookie offset : ℕ) (given : List ℕ) → data_chunk is_last cookie offset given ≡ chunk is_last ChunkType.Data cookie (bytes 8 offset ++ given) }
    ensures holes { (is_last : Bool) (cookie offset len : ℕ) → hole_chunk is_last cookie offset len ≡ chunk is_last ChunkType.Hole cookie (bytes 8 offset ++ bytes 4 len) }
    ensures statuses { (is_last ends : Bool) (context other : MetaContext) (cookie also : ℕ) (extents others : List (ℕ × ℕ)) (x y : List ℕ) → cookie < 2 ^ 64 → also < 2 ^ 64
        → FitExtents extents → FitExtents others → 4 + 8 * length extents < 2 ^ 32 → 4 + 8 * length others < 2 ^ 32
        → status_chunk is_last context cookie extents ++ x ≡ status_chunk ends other also others ++ y
        → (is_last ≡ ends) × (context ≡ other) × (cookie ≡ also) × (extents ≡ others) × (x ≡ y) }
    ensures extents { (is_last : Bool) (context : MetaContext) (cookie : ℕ) (extents : List (ℕ × ℕ))
        → status_chunk is_last context cookie extents ≡ status_head is_last context cookie (length extents) ++ extents_text extents }
    ensures errors { (error cookie : ℕ) → error_chunk error cookie ≡ chunk true ChunkType.Error cookie (bytes 4 error ++ bytes 2 0) }
    ensures done { (cookie : ℕ) → done_chunk cookie ≡ chunk true ChunkType.Done cookie [] }
{}

/// A frame of the client is read again, whatever follows it: [`crate::wanted`] answers where it ends, and [`crate::read_frame`] what it says.
pub fn frames_are_read_again()
    ensures wanted { (kind : Kind) (m : Message) (frame rest : List ℕ) → IsFrame kind m frame → bytes_wanted kind (frame ++ rest) ≡ length frame }
    ensures whole { (kind : Kind) (m : Message) (frame rest : List ℕ) → IsFrame kind m frame → len_of_whole kind (frame ++ rest) ≡ length frame }
    ensures said { (kind : Kind) (m n : Message) (frame rest : List ℕ) → IsFrame kind m frame
        → IsFrame kind n (take (len_of_whole kind (frame ++ rest)) (frame ++ rest)) → n ≡ m }
{}

/// What a writer puts at a place is what a reader has there, and what stood behind it follows.
pub fn puts_are_read()
    ensures { (old added new : List ℕ) (place end : ℕ) → place ≤ length old → Puts old place added new end → drop place new ≡ added ++ drop end old }
{}
