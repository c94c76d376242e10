//! The ship modes of a warehouse.
ghost use Rattle.std.specs.Prelude.{◌≡◌, ◌⊎◌, ◌≤◌, ℕ, List, [], ◌++◌, None, Some, length, IfErr, IfOk, IsOkUnless};
ghost use Rattle.cube_model.specs.declared.fault.Fault.TheVariants.{BadLayout, Memory};
ghost use Rattle.cube_model.specs.declared.fault.MemberPlace.TheVariants.{InBatch};
ghost use Rattle.cube_model.specs.Limits.{most_batch_rows};
ghost use Rattle.cube_model.specs.ShipModes.{modes_cause};
ghost use Rattle.batch_admission.specs.ShipModes.{AreCodesAmong, texts_by};
ghost use Rattle.dictionary.specs.Dictionary.{firsts};
ghost use Rattle.dictionary.specs.Spelling.{AreShort};
ghost use Rattle.warehouse_root.specs.Modes.{AreModes, SpellModes, modes_spelling};

use batch_admission::{add_modes, reserved_row};
use cube_model::limits::MOST_MEMBERS;
use cube_model::{Fault, MemberPlace};
use dictionary::Dictionary;
use std::alloc::Global;
use std::marker::Model;
use warehouse_root::{decode_modes, encode_modes};

/// The ship modes of the batches of a warehouse of the second layout, each once in the order of first use. In the first
/// layout there are none.
///
/// Contracts see the list of them.
#[derive(Drop)]
pub struct ShipModes {
    texts: Dictionary,
}

impl Model for ShipModes {
    ghost use Rattle.std.specs.Prelude.{◌≡◌, ℕ, List};
    ghost use Rattle.cube_model.specs.Limits.{most_members};
    ghost use Rattle.warehouse_root.specs.Modes.{AreModes};

    ghost Value = { List (List ℕ) };

    ghost view = { λ modes. modes.texts.texts };

    ghost invariant = { λ modes. AreModes modes.texts.texts × (modes.texts.limit ≡ most_members) };
}

impl ShipModes {
    /// No ship mode yet.
    pub fn none(alloc: Global) -> ShipModes
        ensures { result ≡ [] }
    {
        ShipModes {
            texts: Dictionary::new(alloc, MOST_MEMBERS as u32),
        }
    }

    /// Those that the bytes of object 5 spell. `BadLayout` where they spell none.
    pub fn decode(alloc: Global, bytes: &[u8]) -> Result<ShipModes, Fault>
        ensures ok { IfOk result (SpellModes bytes.now) }
        ensures refused { IfErr result (λ fault. (fault ≡ Memory)
            ⊎ ((fault ≡ BadLayout) × ((modes : List (List ℕ)) → ¬ SpellModes bytes.now modes))) }
    {
        Ok(ShipModes {
            texts: decode_modes(alloc, bytes)?,
        })
    }

    /// The bytes of object 5. It can only fail when out of memory.
    pub fn encode(&self, alloc: Global) -> Result<Vec<u8>, Fault>
        ensures ok { IfOk result (λ bytes. bytes.items ≡ modes_spelling self.now) }
        ensures are { AreModes self.now }
        ensures memory { IsOkUnless result Memory }
    {
        encode_modes(alloc, &self.texts)
    }

    /// The same as a dictionary.
    pub fn dictionary(&self) -> &Dictionary
        ensures texts { result.now.texts ≡ self.now }
        ensures are { AreModes self.now }
    {
        &self.texts
    }

    /// How many there are.
    pub fn len(&self) -> usize
        ensures many { result ≡ length self.now }
        ensures are { AreModes self.now }
    {
        self.texts.len()
    }

    /// These with those of a batch after them, or the first cause to refuse the batch for its ship modes: one is the
    /// text `ALL`, or there are more than 65,535. The batch is given by its own ship modes and the code of each row's,
    /// in two bytes, the lowest first. It can also fail when out of memory.
    pub fn with_batch(
        &self,
        alloc: Global,
        modes: &Dictionary,
        codes: &[[u8; 2]],
    ) -> Result<ShipModes, Fault>
        requires below { AreCodesAmong modes.now.texts codes.now }
        requires few { length codes.now ≤ most_batch_rows }
        requires short { AreShort (texts_by modes.now.texts codes.now) }
        ensures ok { IfOk result (λ more. (earlier : List (List ℕ)) → self.now ≡ firsts earlier
            → more ≡ firsts (earlier ++ texts_by modes.now.texts codes.now)) }
        ensures cause { IfErr result (λ fault. (fault ≡ Memory) ⊎ ((earlier : List (List ℕ)) → self.now ≡ firsts earlier
            → modes_cause InBatch earlier (texts_by modes.now.texts codes.now) ≡ Some fault)) }
        ensures none { IfOk result (λ _. (earlier : List (List ℕ)) → self.now ≡ firsts earlier
            → modes_cause InBatch earlier (texts_by modes.now.texts codes.now) ≡ None) }
    {
        if let Some(row) = reserved_row(modes, codes) {
            let place = MemberPlace::InBatch { row };
            return Err(Fault::ReservedMember { place });
        }
        let mut texts = self.texts.copied(alloc)?;
        if let Some(row) = add_modes(alloc, &mut texts, modes, codes)? {
            let place = MemberPlace::InBatch { row };
            return Err(Fault::TooManyMembers { place });
        }
        Ok(ShipModes { texts })
    }
}
