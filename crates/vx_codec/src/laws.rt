//! The laws of formats. Each function does nothing: its clauses are the laws.

ghost use Rattle.std.specs.Prelude.{◌≡◌, ◌<◌, ℕ, Bool};
ghost use Rattle.vx_codec.specs.Bits.{bits};
ghost use Rattle.vx_codec.specs.FixedWidth.{byte, fixed_width, raw};
ghost use Rattle.vx_codec.specs.Format.{IsLawful, both, tested};
ghost use Rattle.vx_codec.specs.Laws.{OfLawful, NoSpellingBeginsAnother, PairIsLawful, MappedIsLawful, OfMessages, UnlikeSpellings};
ghost use Rattle.vx_codec.specs.Lists.{repeated, counted, delimited, framed, optional};
ghost use Rattle.vx_codec.specs.Message.{IsWhole, ended, number_field, number_key, message_field, message_key, tested_whole};
ghost use Rattle.vx_codec.specs.Varint.{varint};

/// Every format of this crate is lawful.
pub fn formats_are_lawful()
    ensures byte { IsLawful byte }
    ensures varint { IsLawful varint }
    ensures fixed_width { (width : ℕ) → IsLawful (fixed_width width) }
    ensures raw { (count : ℕ) → IsLawful (raw count) }
    ensures delimited { IsLawful delimited }
    ensures bits { (count : ℕ) → IsLawful (bits count) }
{}

/// What the combinators make of lawful formats of any values is lawful, and no spelling of a lawful format begins another.
pub fn combinators_keep_laws<A, B>()
    ensures apart { OfLawful A (λ f. NoSpellingBeginsAnother f) }
    ensures pair { OfLawful A (λ f. PairIsLawful B f) }
    ensures both { OfLawful A (λ f. OfLawful B (λ g. IsLawful (both f g))) }
    ensures mapped { OfLawful A (λ f. MappedIsLawful B f) }
    ensures tested { OfLawful A (λ f. (ok : A → Bool) → IsLawful (tested ok f)) }
    ensures repeated { OfLawful A (λ f. (count : ℕ) → IsLawful (repeated f count)) }
    ensures counted { OfLawful A (λ f. IsLawful (counted f)) }
    ensures optional { OfLawful A (λ f. IsLawful (optional f)) }
    ensures framed { OfLawful A (λ f. IsLawful (framed f)) }
{}

/// Fields make messages: each is read back from its spelling, and from that one alone.
pub fn fields_make_messages<A, B>()
    ensures ended { (low : ℕ) → IsWhole low ended }
    ensures number_field { (low number : ℕ) → low < number_key number → OfMessages A (number_key number) (λ f. IsWhole low (number_field number f)) }
    ensures message_field { (low high number : ℕ) → low < message_key number → OfMessages A 0 (λ f. OfMessages B high (λ g. IsWhole low (message_field number f g))) }
    ensures tested { (low : ℕ) → OfMessages A low (λ f. (ok : A → Bool) → IsWhole low (tested_whole ok f)) }
    ensures unlike { (low : ℕ) → OfMessages A low (λ f. UnlikeSpellings f) }
{}
