// A store as a source of its objects.
ghost use Rattle.object_store.specs.Content.{bytes_of};

use crate::store::Store;
use cube_model::Fault;
use sector_device::Sectors;
use wire::Source;

impl<D: Sectors> Source for Store<D> {
    ghost use Rattle.std.specs.Prelude.{refl};
    ghost use Rattle.std.proofs.Common.{subst, sym};
    ghost use Rattle.sector_device.proofs.Moments.{started};
    ghost use Rattle.object_store.specs.Ready.{content_from};
    ghost use Rattle.object_store.specs.Shows.{ShowsBy};
    ghost use Rattle.object_store.specs.Store.{content_of, device_of, size_in};
    ghost use Rattle.object_store.specs.Sourced.{ReadsAfterReads, RefusesAfterReads};

    ghost totals = { λ store id. size_in store id };

    ghost texts = { λ store id. bytes_of (content_of D.Sectors store) id };

    ghost keeps_word = { λ store. D.Sectors.keeps_word (device_of store) };

    ghost always_keeps = { ⊥ };

    ghost reads = { ReadsAfterReads D.Sectors };

    ghost fails = { RefusesAfterReads D.Sectors };

    fn total(&self, id: u32) -> Option<u64> {
        self.size(id)
    }

    fn read_part(&mut self, id: u32, at: u64, to: &mut [u8]) -> Result<(), Fault> {
        self.read_at(id, at, to)?;
        Ok(())
    }

    // As a store has one image, what it shows is what its reads give.
    ghost none_read = { λ store. record {
      now = record {
        still = record {
          word = λ word. word;
          content = λ word. refl;
          room = refl;
          sizes = λ id. refl;
          failed = refl;
          failures = refl;
        };
        leaves = λ fine. record {
          word = λ word. word;
          size = λ word. refl;
          moments = λ word. started _ _ (λ image. D.Sectors.only_now store.device image word) (λ image is. (
            content_from (D.Sectors.state store.device).reads store.superblock store.entries.items store.root.items,
            (
              store.superblock,
              store.entries.items,
              subst
                  (λ reads. ShowsBy (D.Sectors.state store.device).size reads
                  (content_from (D.Sectors.state store.device).reads store.superblock store.entries.items
                  store.root.items) store.superblock store.entries.items)
                  (λ j i. sym ((store.ready fine word).settled i (image i) (is i)) j)
                  (store.ready fine word).shows,
            ),
            refl,
          ));
        };
      };
      after = λ start before. before;
    } };

    ghost reads_on = { λ old mid new first second.
        record {
          now = second.after old first.now;
          after = λ start before. second.after start
              (first.after start before);
        } };

    ghost fails_later = { λ fault old mid new first second.
        record {
          now = second.after old first.now;
          after = λ start before. second.after start
              (first.after start before);
        } };
}
