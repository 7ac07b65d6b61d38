//! Stored versions and artifacts of cookbooks.
ghost use Rattle.std.specs.Prelude.{◌≡◌, ℕ, true, List, IfOk, IsTrue, codes, option_map};
ghost use Rattle.doc_tree.specs.Doc.{boolean};
ghost use Rattle.doc_tree.specs.Part.{part_at, with_pair};
ghost use Rattle.doc_tree.specs.Tree.{doc_of};
ghost use Rattle.sandboxes.specs.Sums.{IsRising, lists};
ghost use Rattle.cookbook_meta.specs.Checksums.{checksums_of};
ghost use Rattle.cookbook_meta.specs.Outcomes.{Gives};
ghost use Rattle.cookbook_meta.specs.Parts.{is_checksum};
ghost use Rattle.cookbook_meta.specs.Sound.{HasChecksums};
ghost use Rattle.org_shelves.specs.Editions as spec;
ghost use Rattle.org_shelves.specs.Frozen.{freeze};
ghost use Rattle.org_shelves.specs.StoredManifests.{IsKept, IsStored, IsStoredArtifact, Says, artifact_stored_from, stored_from};

use crate::laws::{artifacts_are_stored, manifests_are_kept, manifests_are_stored, version_fits};
use cookbook_meta::{
    Entry, Manifest, MetaFault, Metadata, artifacts_read_back, read_artifact, read_manifest,
};
use dep_solver::Release;
use doc_tree::{Fields, Name, NoMemory, Text, Tree};
use sandboxes::{Checksum, Sums, read_checksum};
use shelves::Duplicate;
use std::alloc::Global;
use std::marker::Model;
use version_rules::{Needs, Version};

/// A stored version of a cookbook, or a stored artifact: its stored object, with its needs, whether it is frozen and the checksums of its
/// files at hand. Contracts see the stored object's document.
#[derive(Drop)]
pub struct Edition {
    whole: Tree,
    needs: Needs,
    frozen: bool,
    sums: Sums,
}

impl Model for Edition {
    ghost use Rattle.doc_tree.specs.Doc.{Doc};
    ghost use Rattle.doc_tree.specs.DocCode.{doc_code};

    ghost Value = { Doc };

    ghost coded = { doc_code };

    ghost use Rattle.doc_tree.specs.Tree.{doc_of};
    ghost use Rattle.org_shelves.specs.Editions.{ArePartsOf};

    ghost view = { λ e. doc_of e.whole };

    ghost invariant = { λ e. ArePartsOf (doc_of e.whole) e.needs e.frozen e.sums };
}

impl Edition {
    /// What is stored of the manifest that a body gives under this name and version, or the fault of `read_manifest`.
    pub fn read(
        alloc: Global,
        body: &Tree,
        name: &Name,
        version: &Version,
    ) -> Result<Edition, MetaFault>
        ensures given { Gives result (stored_from name.now version.now (doc_of body.now)) }
        ensures stored { IfOk result (IsStored name.now version.now) }
    {
        version_fits(version);
        manifests_are_kept();
        manifests_are_stored();
        let manifest = read_manifest(alloc, body, name, version)?;
        Ok(Edition::of(alloc, manifest)?)
    }

    /// What is stored of the artifact that a body gives under this cookbook's name and this identifier, or the fault of
    /// `read_artifact`.
    pub fn read_artifact(
        alloc: Global,
        body: &Tree,
        name: &Name,
        id: &Text,
    ) -> Result<Edition, MetaFault>
        ensures given { Gives result (artifact_stored_from name.now id.now (doc_of body.now)) }
        ensures stored { IfOk result (IsStoredArtifact name.now id.now) }
    {
        artifacts_read_back();
        artifacts_are_stored();
        let manifest = read_artifact(alloc, body, name, id)?;
        version_fits(&manifest.version);
        Ok(Edition::of_manifest(alloc, manifest)?)
    }

    /// What is stored of a manifest, which is moved.
    ///
    /// It requires that the manifest is kept, as each that `read_manifest` gives is (`manifests_are_kept`).
    pub fn of(alloc: Global, manifest: Manifest) -> Result<Edition, NoMemory>
        requires { IsKept manifest }
        ensures { IfOk result (λ edition. edition ≡ doc_of manifest.whole) }
    {
        Edition::of_manifest(alloc, manifest)
    }

    /// What is stored of a manifest, whose document says what the manifest does.
    fn of_manifest(alloc: Global, manifest: Manifest) -> Result<Edition, NoMemory>
        requires says { Says (doc_of manifest.whole) manifest }
        requires sums { HasChecksums manifest.files }
        ensures { IfOk result (λ edition. edition ≡ doc_of manifest.whole) }
    {
        let sums = sums_of(alloc, manifest.files.as_slice())?;
        let Manifest {
            metadata,
            frozen,
            whole,
            ..
        } = manifest;
        let Metadata { needs, .. } = metadata;
        Ok(Edition {
            whole,
            needs,
            frozen,
            sums,
        })
    }

    /// Its stored object.
    pub fn tree(&self) -> &Tree
        ensures { doc_of result.now ≡ self.now }
    {
        &self.whole
    }

    /// The cookbooks that it needs, in the order of their names' bytes.
    pub fn needs(&self) -> &Needs
        ensures { result.now ≡ spec.needs_in self.now }
    {
        &self.needs
    }

    /// Whether it is frozen.
    pub fn is_frozen(&self) -> bool
        ensures { result ≡ spec.is_frozen self.now }
    {
        self.frozen
    }

    /// The checksums of the files that it names, in the order of their bytes and each once.
    pub fn sums(&self) -> &Sums
        ensures rising { IsRising result.now }
        ensures members { (sum : List ℕ) → lists result.now sum ≡ spec.names_sum self.now sum }
    {
        let _rising = self.sums.as_slice();
        &self.sums
    }

    /// The checksums of the files that it names, moved out. It takes no memory.
    pub fn into_sums(self) -> Sums
        ensures rising { IsRising result }
        ensures members { (sum : List ℕ) → lists result sum ≡ spec.names_sum self sum }
    {
        let Edition { sums, .. } = self;
        let _rising = sums.as_slice();
        sums
    }

    /// Whether it names a file of this checksum. It is looked for by halves.
    pub fn names(&self, sum: &Checksum) -> bool
        ensures { result ≡ spec.names_sum self.now sum.now }
    {
        self.sums.contains(sum)
    }

    /// An equal edition of its own.
    pub fn copy(&self, alloc: Global) -> Result<Edition, NoMemory>
        ensures { IfOk result (λ edition. edition ≡ self.now) }
    {
        Ok(Edition {
            whole: self.whole.copy(alloc)?,
            needs: copy_needs(alloc, &self.needs)?,
            frozen: self.frozen,
            sums: self.sums.copy(alloc)?,
        })
    }

    /// The same edition, frozen: its stored object with `frozen?` true.
    #[tactic(auto, using(doc_tree::proofs::Docs::back))]
    pub fn with_frozen(self, alloc: Global) -> Result<Edition, NoMemory>
        ensures { IfOk result (λ edition. edition ≡ freeze self) }
    {
        let Edition {
            whole,
            needs,
            frozen,
            sums,
        } = self;
        match whole {
            Tree::Dict(fields) => Ok(Edition {
                whole: Tree::Dict(frozen_fields(alloc, fields)?),
                needs,
                frozen: true,
                sums,
            }),
            Tree::Null | Tree::Bool(_) | Tree::Whole(_) | Tree::Words(_) | Tree::List(_) => {
                Ok(Edition {
                    whole,
                    needs,
                    frozen,
                    sums,
                })
            }
        }
    }

    /// What the solver sees of it, as this version.
    pub fn release(&self, alloc: Global, version: Version) -> Result<Release, NoMemory>
        ensures version { IfOk result (λ release. release.version ≡ version) }
        ensures needs { IfOk result (λ release. release.needs ≡ spec.needs_in self.now) }
    {
        self.whole.known();
        Ok(Release {
            version,
            needs: copy_needs(alloc, &self.needs)?,
        })
    }

    /// The part `dependencies` of its metadata as stored, an empty dict where there is none.
    pub fn dependencies(&self, alloc: Global) -> Result<Tree, NoMemory>
        ensures { IfOk result (λ tree. doc_of tree ≡ spec.dependencies_in self.now) }
    {
        match dependencies_at(&self.whole) {
            Some(tree) => tree.copy(alloc),
            None => Ok(Tree::Dict(Fields::new(alloc))),
        }
    }
}

impl Duplicate for Edition {
    fn duplicate(&self, alloc: Global) -> Result<Edition, NoMemory> {
        self.copy(alloc)
    }
}

/// The checksums of files.
fn sums_of(alloc: Global, files: &[Entry]) -> Result<Sums, NoMemory>
    requires { HasChecksums files.now }
    ensures { IfOk result (λ sums. (sum : List ℕ) → lists sums sum ≡ lists (checksums_of files.now) sum) }
{
    let mut sums = Vec::with_capacity(alloc, files.len())?;
    for entry in files {
        sums.push(sum_of(entry))?;
    }
    Ok(Sums::of(sums))
}

fn sum_of(entry: &Entry) -> Checksum
    requires { IsTrue (is_checksum entry.now.checksum) }
    ensures { result ≡ entry.now.checksum }
{
    read_checksum(&entry.checksum).unwrap()
}

/// Equal needs of their own.
fn copy_needs(alloc: Global, needs: &Needs) -> Result<Needs, NoMemory>
    ensures { IfOk result (λ copies. copies ≡ needs.now) }
{
    let mut copies = Vec::with_capacity(alloc, needs.len())?;
    for need in needs.as_slice() {
        copies.push(need.copy(alloc)?)?;
    }
    Ok(Needs::of(copies))
}

/// The same fields with `frozen?` true.
fn frozen_fields(alloc: Global, fields: Fields) -> Result<Fields, NoMemory>
    ensures { IfOk result (λ made. made ≡ with_pair (codes "frozen?") (boolean true) fields) }
{
    let mut fields = fields;
    fields.put(Text::from_str(alloc, "frozen?")?, Tree::Bool(true))?;
    Ok(fields)
}

/// What stands under `dependencies` in the metadata.
fn dependencies_at(tree: &Tree) -> Option<&Tree>
    ensures { option_map (λ t. doc_of t.now) result ≡ spec.dependencies_at (doc_of tree.now) }
{
    part_at(part_at(tree, "metadata")?, "dependencies")
}

fn part_at<'a>(tree: &'a Tree, key: &str) -> Option<&'a Tree>
    ensures { option_map (λ t. doc_of t.now) result ≡ part_at key.now (doc_of tree.now) }
{
    match tree {
        Tree::Dict(fields) => fields.get(key),
        Tree::Null | Tree::Bool(_) | Tree::Whole(_) | Tree::Words(_) | Tree::List(_) => None,
    }
}
