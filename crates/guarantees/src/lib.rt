// What is guaranteed of the whole product, as theorems. No code. Read proofs/ in this order: EntryPoints, Refusals, Agreement,
// DistinctNames, StoredKeys, PackKeys, SameEntities, NightListing, Listings, Merging, ProofSet.
#![tactic(auto)]
