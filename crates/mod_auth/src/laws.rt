//! Who is let in, in an operator's words: facts about the definitions alone. The functions do nothing.

ghost use Rattle.std.specs.Prelude.{◌≡◌, ◌↔◌, List, ℕ};
ghost use Rattle.rad_words.specs.declared.codes.Code.TheVariants as codes;
ghost use Rattle.rad_words.specs.declared.sections.Section.TheVariants.{Authenticate};
ghost use Rattle.rad_value.specs.PairLists.{PairLists};
ghost use Rattle.mod_auth.specs.Pap.{pap_done};
ghost use Rattle.mod_auth.specs.Chap.{chap_done};
ghost use Rattle.mod_auth.specs.LetsIn.{KnowsThePassword, HasTheDigest};

/// In authenticate `pap` answers ok exactly where the request's first User-Password is a text that isn't empty, and the first
/// of the four passwords in the control list is that text, its MD5, its SHA-1, or the SHA-1 of it and a salt with the salt
/// behind. The lists stay.
pub fn pap_lets_in_by_the_password()
    ensures exactly { (name : List ℕ) (lists : PairLists) → ((pap_done name Authenticate lists).1 ≡ codes.Ok) ↔ KnowsThePassword lists }
    ensures stays { (name : List ℕ) (lists : PairLists) → (pap_done name Authenticate lists).0 ≡ lists }
{}

/// In authenticate `chap` answers ok exactly where the request's first CHAP-Password is an octet and 16 others, which are the
/// MD5 of that octet, the user's Cleartext-Password and the challenge. The lists stay.
pub fn chap_lets_in_by_the_digest()
    ensures exactly { (name authenticator : List ℕ) (lists : PairLists)
        → ((chap_done name Authenticate authenticator lists).1 ≡ codes.Ok) ↔ HasTheDigest authenticator lists }
    ensures stays { (name authenticator : List ℕ) (lists : PairLists) → (chap_done name Authenticate authenticator lists).0 ≡ lists }
{}
