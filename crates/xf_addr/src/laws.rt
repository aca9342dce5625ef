//! What the functions of the contracts mean.
ghost use Rattle.std.specs.Prelude.{◌≡◌, ◌≢◌, ◌≤◌, ◌<◌, ◌^◌, ◌↔◌, ℕ, List, ◌∷◌, ◌++◌, Some, None, All, decimal};
ghost use Rattle.std.specs.Net.Text.{hex, hex_groups_text};
ghost use Rattle.xf_types.specs.declared.network.Addr.{Addr};
ghost use Rattle.xf_types.specs.declared.network.Addr.TheVariants.{V4};
ghost use Rattle.xf_types.specs.declared.network.Prefix.{Prefix};
ghost use Rattle.xf_addr.specs.Spelling.{Spells};
ghost use Rattle.xf_addr.specs.Reading.{addr_of};
ghost use Rattle.xf_addr.specs.Numbers.{number_of, cut_at};
ghost use Rattle.xf_addr.specs.Prefixes.{SpellsPrefix, prefix_of};
ghost use Rattle.xf_addr.specs.Text.{addr_text};
ghost use Rattle.xf_addr.specs.Written.{IsWrittenGroup, IsWritten};

/// The functions that read are the grammar, so a text spells one value at most.
pub fn spelling_laws()
    ensures addr { (text : List ℕ) (a : Addr) → (addr_of text ≡ Some a) ↔ Spells text a }
    ensures prefix { (text : List ℕ) (p : Prefix) → (prefix_of text ≡ Some p) ↔ SpellsPrefix text p }
    ensures one_addr { (text : List ℕ) (a b : Addr) → Spells text a → Spells text b → a ≡ b }
    ensures one_prefix { (text : List ℕ) (p q : Prefix) → SpellsPrefix text p → SpellsPrefix text q → p ≡ q }
{}

/// A value is written in one way: as the rules ask (RFC 5952, 4), and an IPv4 address by its one spelling.
pub fn written_laws()
    ensures v4 { (text : List ℕ) (n : ℕ) → n < 2 ^ 32 → (text ≡ addr_text (V4 n)) ↔ Spells text (V4 n) }
    ensures group { (text : List ℕ) (n : ℕ) → n < 2 ^ 16 → (text ≡ hex n) ↔ IsWrittenGroup text n }
    ensures groups { (text groups : List ℕ) → (text ≡ hex_groups_text groups) ↔ IsWritten text groups }
{}

/// A number is read where it is written in decimal, and a text is cut at the first such byte.
pub fn number_laws()
    ensures number { (max n : ℕ) (word : List ℕ) → max < 2 ^ 64
        → (number_of max word ≡ Some n) ↔ ((word ≡ decimal n) × (n ≤ max)) }
    ensures cut { (byte : ℕ) (text : List ℕ) (parts : List ℕ × List ℕ)
        → (cut_at byte text ≡ Some parts) ↔ ((text ≡ parts.0 ++ byte ∷ parts.1) × All (λ c. c ≢ byte) parts.0) }
    ensures uncut { (byte : ℕ) (text : List ℕ) → (cut_at byte text ≡ None) ↔ All (λ c. c ≢ byte) text }
{}
