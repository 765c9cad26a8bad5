//! Theorems about RMI calls by registers, the host's stores and fills, the steps of guests, and interrupts.
ghost use Rattle.std.specs.Prelude.{◌≡◌, ◌≢◌, ℕ, ◌+◌, ◌-◌, ◌*◌, ◌/◌, ◌%◌, ◌^◌, ◌<◌, ◌≤◌, ◌⊎◌, true, false, List, [], ◌∷◌, length, Some, None};
ghost use Rattle.granule_addr.specs.Page.{zero_page};
ghost use Rattle.page_arena.specs.Page.{page_at};
ghost use Rattle.rmi_abi.specs.declared.registers.Registers.{Registers};
ghost use Rattle.rmi_abi.specs.declared.registers.SmcResult.{SmcResult};
ghost use Rattle.rmi_abi.specs.declared.rec_run.RecExit.{RecExit};
ghost use Rattle.rmi_abi.specs.declared.settings.RmmSettings.{RmmSettings};
ghost use Rattle.rmi_abi.specs.declared.call.Call.{Call};
ghost use Rattle.rmi_abi.specs.declared.call.Call.TheVariants.{GranuleDelegate, GranuleUndelegate, RealmActivate, RealmCreate, RealmDestroy, RecCreate, RecDestroy, RecEnter, RttCreate, RttDestroy, RttFold, RttInitRipas, RttSetRipas, RttUnmapUnprotected, DataCreate, DataCreateUnknown, DataDestroy};
ghost use Rattle.rmi_abi.specs.declared.word.Word.{Word};
ghost use Rattle.rmi_abi.specs.declared.word.Word.TheVariants.{Success};
ghost use Rattle.rmi_abi.specs.Call.{call_in};
ghost use Rattle.rmi_abi.specs.RecRun.{flags_in};
ghost use Rattle.rmi_abi.specs.Settings.{IsPlatform};
ghost use Rattle.rmm_granules.specs.Inside.{platform_machine};
ghost use Rattle.rmm_model.specs.declared.access.AccessSize.{AccessSize};
ghost use Rattle.rmm_model.specs.declared.entry.RmmRttEntry.TheVariants.{Unassigned, Assigned, AssignedNs, Table};
ghost use Rattle.rmm_model.specs.declared.granule.RmmGranuleState.TheVariants.{Undelegated, Delegated, Data, Rd, Rec, Rtt};
ghost use Rattle.rmm_model.specs.declared.step.GuestStep.{GuestStep};
ghost use Rattle.rmm_model.specs.declared.step.GuestStep.TheVariants.{Write, Read, Fetch};
ghost use Rattle.rmm_model.specs.declared.step.StepOutcome.{StepOutcome};
ghost use Rattle.rmm_model.specs.declared.step.StepOutcome.TheVariants.{Result as IsResult};
ghost use Rattle.rmm_model.specs.declared.step.StepResult.TheVariants.{Read as IsRead};
ghost use Rattle.rmm_model.specs.declared.step.StepWords.{StepWords};
ghost use Rattle.rmm_model.specs.declared.realm.RmmRealm.{RmmRealm};
ghost use Rattle.rmm_model.specs.declared.realm.RmmRealmState.TheVariants.{New, Active};
ghost use Rattle.rmm_model.specs.declared.entry.RmmRipas.{RmmRipas};
ghost use Rattle.rmm_model.specs.declared.entry.RmmRipas.TheVariants.{Empty, Ram};
ghost use Rattle.rmm_model.specs.declared.rec.LastExit.{LastExit};
ghost use Rattle.rmm_model.specs.declared.rec.LastExit.TheVariants.{RipasChange};
ghost use Rattle.rmm_model.specs.declared.rec.RmmRec.{RmmRec};
ghost use Rattle.rmm_model.specs.Access.{value_in};
ghost use Rattle.rmm_model.specs.Allowed.{allowed_words};
ghost use Rattle.rmm_model.specs.Call.{command_of, performed, rmi};
ghost use Rattle.rmm_model.specs.Entry.{is_live, is_ram};
ghost use Rattle.rmm_model.specs.Granule.{of_no_realm, of_realm};
ghost use Rattle.rmm_model.specs.Guest.{rec_in, is_rec_named, first_step, queued};
ghost use Rattle.rmm_model.specs.Level.{entry_size};
ghost use Rattle.rmm_model.specs.Realm.{is_protected, is_unprotected};
ghost use Rattle.rmm_model.specs.Rec.{is_running, no_request};
ghost use Rattle.rmm_model.specs.Command.Auxiliary.{with_aux};
ghost use Rattle.rmm_model.specs.Command.Operand.{realm_at, rec_at};
ghost use Rattle.rmm_model.specs.Command.RealmDestroy.{has_live_table, without_tables};
ghost use Rattle.rmm_model.specs.Host.{after_store, after_fill};
ghost use Rattle.rmm_model.specs.Machine.{Machine, granule_at, is_inside, is_secure, number_of, page_in, with_blank, is_vmid_used};
ghost use Rattle.rmm_model.specs.Table.{entry_in_page, has_live};
ghost use Rattle.rmm_model.specs.Walk.{entry_at, table_below, walk, top};
ghost use Rattle.rmm_model.specs.Command.RecEnter.{interrupted, step_outcome, after_step, after_entry, after_first_step, after_exit};
ghost use Rattle.rmm_laws.specs.Apart.{rd_named, changes_vmids, IsFromHost, IsHostChanged, IsRunPage, KeepsSettings, IsOfRealm, IsOfAnother, IsOtherVmid, IsSameAt};
ghost use Rattle.rmm_laws.specs.Back.{ComesBack, RecComesBack, IsAssignedTo, IsReleased};
ghost use Rattle.rmm_laws.specs.Fold.{CanReplaceTable, IsAlike};
ghost use Rattle.rmm_laws.specs.Guest.{IsHostValue, IsUnanswered, IsAsLeft, IsRecMadeOf, IsStepFor, is_write};
ghost use Rattle.rmm_laws.specs.Half.{IsOfHalf, IsPlaced};
ghost use Rattle.rmm_laws.specs.Location.{location_at, content_at, IsPageAt, KeepsLocations, KeepsContents};
ghost use Rattle.rmm_laws.specs.Owner.{is_rec_in, KeepsRecs};
ghost use Rattle.rmm_laws.specs.Proper.{IsProper, IsProperRun};
ghost use Rattle.rmm_laws.specs.Refusal.{IsRefused, is_refusal, IsOneOf, IsRecEnter, IsFault, IsNotGiven, IsNotQueued, IsNotRunning, IsAccess, IsNotDone};
ghost use Rattle.rmm_laws.specs.Request.{KeepsRequests, IsRestFrom, IsAskedFor};
ghost use Rattle.rmm_laws.specs.Ripas.{KeepsRipas, ripas_at, IsBetween, IsRipasSet, IsWithoutMemory, outcome_without_memory};
ghost use Rattle.rmm_laws.specs.Role.{Used, page_count, uses, IsSound};
ghost use Rattle.rmm_laws.specs.Run.{HasRun};
ghost use Rattle.rmm_laws.specs.State.{IsRealmIn, IsRealmMadeOf, KeepsStates, KeepsRealms, HasRim, IsMeasured, Measures, KeepsRims};
ghost use Rattle.rmm_laws.specs.Step.{HasNextStep, HasRemoval, CanBeTornDown};
ghost use Rattle.rmm_laws.specs.Walk.{IsTableOf, Serves, EndsWell, IsPassed, IsAtLive, IsNextTop, LeadsToTable, walked_to};

/// A refused call to the RMM changes nothing. Neither does a store or fill by the host that faults, nor a step that is
/// not queued for a REC. A guest's access changes nothing unless its outcome is `Done`. An interrupt changes nothing if
/// it is answered `None`. That is the answer if no REC runs at its address.
///
/// Only a call that enters a REC is answered with the word of a REC that runs on. That REC is RUNNING then, and was not
/// before. A REC that is entered with RMI_SUCCESS does not run after the call.
pub fn refusals_change_nothing()
    ensures calls { (r : Registers) (m : Machine) → IsRefused (rmi r m).0.x0 → (rmi r m).1 ≡ m }
    ensures running { (r : Registers) (m : Machine) → (rmi r m).0.x0 ≡ 2 ^ 64 - 2 → IsRecEnter m (rmi r m).1 (call_in r) }
    ensures left { (m : Machine) (rec run : ℕ) → (performed (RecEnter rec run) m).0.word ≡ Success → is_running (rec_in (performed (RecEnter rec run) m).1 (number_of m rec)).state ≡ false }
    ensures stores { (m : Machine) (address word : ℕ) → IsFault m 8 address → after_store m address word ≡ m }
    ensures fills { (m : Machine) (address value : ℕ) → IsFault m 4096 address → after_fill m address value ≡ m }
    ensures steps { (m : Machine) (rec : ℕ) (w : StepWords) → IsNotQueued (queued m rec w).0 → (queued m rec w).1 ≡ m }
    ensures not_given { (m : Machine) (rec : ℕ) (w : StepWords) → IsNotGiven m rec → IsNotQueued (queued m rec w).0 × ((queued m rec w).1 ≡ m) }
    ensures interrupts { (m : Machine) (rec : ℕ) → (interrupted m rec).0 ≡ None → (interrupted m rec).1 ≡ m }
    ensures not_running { (m : Machine) (rec : ℕ) → IsNotRunning m rec → interrupted m rec ≡ (None, m) }
    ensures accesses { (m : Machine) (realm : RmmRealm) (rec flags : ℕ) (step : GuestStep) → IsAccess step
        → IsNotDone (step_outcome m realm rec flags step) → after_step m realm rec step (step_outcome m realm rec flags step) ≡ m }
{}

/// If the model refuses a call, an RMM may return only a refusal. The word by which the model refuses a call is one of
/// the allowed words. If a call is not refused, RMI_SUCCESS alone is allowed, also of an RMI_REC_ENTER that is answered
/// with the word of a REC that runs on.
pub fn only_refusals_are_allowed()
    ensures done { (call : Call) (m : Machine) → is_refusal (performed call m).0.word ≡ false → allowed_words (command_of call m) ≡ Success ∷ [] }
    ensures own { (call : Call) (m : Machine) → is_refusal (performed call m).0.word ≡ true → IsOneOf (performed call m).0.word (allowed_words (command_of call m)) }
    ensures others { (call : Call) (m : Machine) (word : Word) → is_refusal (performed call m).0.word ≡ true → IsOneOf word (allowed_words (command_of call m)) → is_refusal word ≡ true }
{}

/// Each RTT, DATA and REC_AUX granule has exactly one use, in the realm that owns the granule. No other granule has a
/// use. Owners are RDs, each RD counts its RECs, and DELEGATED granules are zero. The fresh machine of a platform has
/// these properties. Each call keeps them, and so do the host's stores and fills, steps that guests are given, and
/// interrupts. During a run, the entry of a REC, each step of its guest, and the exit keep them.
pub fn granules_have_one_role()
    ensures opened { (s : RmmSettings) (pages : List (List ℕ)) → IsPlatform s → length pages ≤ 4096 → ((k : ℕ) → k < length pages → length (page_at pages k) ≡ 4096)
        → IsProper (platform_machine s pages) }
    ensures start { (m : Machine) → IsSound m → ((granule : ℕ) → granule_at m granule ≡ of_no_realm Undelegated) → IsProper m }
    ensures calls { (r : Registers) (m : Machine) → IsProper m → IsProper (rmi r m).1 }
    ensures stores { (m : Machine) (address word : ℕ) → IsProper m → IsProper (after_store m address word) }
    ensures fills { (m : Machine) (address value : ℕ) → IsProper m → IsProper (after_fill m address value) }
    ensures steps { (m : Machine) (rec : ℕ) (w : StepWords) → IsProper m → IsProper (queued m rec w).1 }
    ensures interrupts { (m : Machine) (rec : ℕ) → IsProper m → IsProper (interrupted m rec).1 }
    ensures entries { (m : Machine) (g address flags : ℕ) → IsProperRun m g → IsProperRun (after_entry m g address flags) g }
    ensures guests { (m : Machine) (g flags : ℕ) → IsProperRun m g → IsProperRun (after_first_step m g flags) g }
    ensures exits { (m : Machine) (g : ℕ) (exit : RecExit) (last : LastExit) → IsProperRun m g → IsProperRun (after_exit m g exit last) g }
    ensures used { (m : Machine) (proper : IsProper m) (user index part : ℕ) (u : Used) → uses m proper.linked.level user index part ≡ Some u → granule_at m u.number ≡ u.attributes }
    ensures once { (m : Machine) (proper : IsProper m) (x i k y j l : ℕ) (u v : Used) → uses m proper.linked.level x i k ≡ Some u → uses m proper.linked.level y j l ≡ Some v → u.number ≡ v.number
        → (x ≡ y) × (i ≡ j) × (k ≡ l) }
{}

/// A walk of an address to the starting level or a deeper one ends at a table of the realm, and this table covers the
/// address. The table is of the level that the walk goes to, or the entry there is no TABLE.
pub fn walks_end_at_covering_table()
    ensures { (m : Machine) (rd ipa level : ℕ) (realm : RmmRealm) (proper : IsProper m) → (granule_at m rd).state ≡ Rd realm → ipa < 2 ^ realm.s2sz → realm.start_level ≤ level
        → EndsWell m proper.linked.level rd realm ipa level (walk m realm ipa level) }
{}

/// ASSIGNED entries are at protected addresses only, and ASSIGNED_NS entries at unprotected ones. These are the two
/// halves of a realm's addresses. UNASSIGNED and UNASSIGNED_NS entries are apart in the same way. A mapping is at a
/// level at which there are pages or blocks, and its memory begins at a multiple of their size.
pub fn halves_are_apart()
    ensures half { (m : Machine) (rd ipa level : ℕ) (realm : RmmRealm) → IsProper m → (granule_at m rd).state ≡ Rd realm → ipa < 2 ^ realm.s2sz → IsOfHalf realm ipa (entry_at m (walk m realm ipa level) ipa) }
    ensures placed { (m : Machine) (rd ipa level : ℕ) (realm : RmmRealm) → IsProper m → (granule_at m rd).state ≡ Rd realm → ipa < 2 ^ realm.s2sz
        → IsPlaced m.settings (walk m realm ipa level).level (entry_at m (walk m realm ipa level) ipa) }
{}

/// Each table of a realm serves the range of addresses that its 512 entries cover. A walk of each address in the range
/// reaches the table.
pub fn tables_are_reached()
    ensures some { (m : Machine) (rd table : ℕ) (realm : RmmRealm) (proper : IsProper m) → (granule_at m rd).state ≡ Rd realm → IsTableOf m rd table
        → (levels : ℕ) × (first : ℕ) × Serves m realm levels table first × (proper.linked.level table ≡ realm.start_level + levels) }
    ensures walks { (m : Machine) (realm : RmmRealm) (levels table first ipa : ℕ) → Serves m realm levels table first → realm.start_level + levels ≤ 3 → first ≤ ipa
        → ipa < first + 512 * entry_size (realm.start_level + levels) → walk m realm ipa (realm.start_level + levels) ≡ walked_to table (realm.start_level + levels) }
{}

/// Each TABLE entry has the address of a table of the same realm, one level below.
pub fn tables_lead_to_tables()
    ensures { (m : Machine) (proper : IsProper m) (rd table i address : ℕ) → IsTableOf m rd table → i < 512 → entry_in_page (page_in m table) i ≡ Table address
        → LeadsToTable m proper.linked.level rd table address }
{}

/// A granule that RTT_DESTROY, RTT_FOLD, DATA_DESTROY or REC_DESTROY removes from its realm becomes DELEGATED and zero.
/// If one of the first three calls succeeds, its X1 is the address of that granule, a table or a page of the realm. A
/// REC is removed with its auxiliary granules. Other granules keep their attributes, but for the RD that counts the
/// REC. What a call gives to the host is zero.
pub fn granules_come_back()
    ensures destroyed { (m : Machine) (rd ipa level : ℕ) → IsProper m → (performed (RttDestroy rd ipa level) m).0.word ≡ Success
        → ComesBack m (performed (RttDestroy rd ipa level) m).1 (number_of m rd) Rtt (performed (RttDestroy rd ipa level) m).0.x1 }
    ensures folded { (m : Machine) (rd ipa level : ℕ) → IsProper m → (performed (RttFold rd ipa level) m).0.word ≡ Success
        → ComesBack m (performed (RttFold rd ipa level) m).1 (number_of m rd) Rtt (performed (RttFold rd ipa level) m).0.x1 }
    ensures pages { (m : Machine) (rd ipa : ℕ) → IsProper m → (performed (DataDestroy rd ipa) m).0.word ≡ Success
        → ComesBack m (performed (DataDestroy rd ipa) m).1 (number_of m rd) Data (performed (DataDestroy rd ipa) m).0.x1 }
    ensures recs { (m : Machine) (rec : ℕ) → IsProper m → (performed (RecDestroy rec) m).0.word ≡ Success → RecComesBack m (performed (RecDestroy rec) m).1 rec }
    ensures released { (r : Registers) (m : Machine) (granule : ℕ) → IsProper m → (granule_at (rmi r m).1 granule).state ≡ Undelegated → IsReleased m (rmi r m).1 granule }
    ensures named { (m : Machine) (rd ipa : ℕ) → (performed (DataDestroy rd ipa) m).0.word ≡ Success → IsAssignedTo m rd ipa (performed (DataDestroy rd ipa) m).0.x1 }
{}

/// No live entry is between an address and the `top` of the walk of that address. The top is at the next live entry of
/// the table, or at the table's end. RTT_DESTROY, DATA_DESTROY and RTT_UNMAP_UNPROTECTED return such a top for the
/// machine after the call. It is above the address.
pub fn tops_are_complete()
    ensures skipped { (m : Machine) (rd ipa level x : ℕ) (realm : RmmRealm) → IsProper m → (granule_at m rd).state ≡ Rd realm → ipa < 2 ^ realm.s2sz → realm.start_level ≤ level → level ≤ 3
        → ipa ≤ x → x < top m (walk m realm ipa level) ipa → IsPassed m realm (walk m realm ipa level) x }
    ensures met { (m : Machine) (rd ipa level : ℕ) (realm : RmmRealm) → IsProper m → (granule_at m rd).state ≡ Rd realm → ipa < 2 ^ realm.s2sz → realm.start_level ≤ level
        → IsAtLive m (walk m realm ipa level) ipa (top m (walk m realm ipa level) ipa) }
    ensures destroyed { (m n : Machine) (answer : SmcResult) (rd ipa level : ℕ) → IsProper m → performed (RttDestroy rd ipa level) m ≡ (answer, n) → answer.word ≡ Success
        → IsNextTop n (realm_at m rd) (walk n (realm_at m rd) ipa (level - 1)) ipa answer.x2 }
    ensures pages { (m n : Machine) (answer : SmcResult) (rd ipa : ℕ) → IsProper m → performed (DataDestroy rd ipa) m ≡ (answer, n) → answer.word ≡ Success
        → IsNextTop n (realm_at m rd) (walk n (realm_at m rd) ipa 3) ipa answer.x2 }
    ensures unmapped { (m n : Machine) (answer : SmcResult) (rd ipa level : ℕ) → IsProper m → performed (RttUnmapUnprotected rd ipa level) m ≡ (answer, n) → answer.word ≡ Success
        → IsNextTop n (realm_at m rd) (walk n (realm_at m rd) ipa level) ipa answer.x1 }
{}

/// RMI commands of a realm's teardown succeed if their preconditions hold. RMI_REC_DESTROY succeeds for a REC that does
/// not run, and RMI_DATA_DESTROY for a page. So do RMI_RTT_UNMAP_UNPROTECTED of a mapping, and RMI_RTT_DESTROY of a
/// table without live entries. RMI_REALM_DESTROY succeeds for a realm without RECs and live entries.
///
/// RMI_GRANULE_UNDELEGATE succeeds for a DELEGATED granule, which is UNDELEGATED and zero then. After
/// RMI_GRANULE_DELEGATE a granule is DELEGATED and zero.
///
/// If some granule is DELEGATED, a step of a realm's teardown succeeds while an entry of the realm is live. If, in
/// addition, no REC of the realm runs, a step succeeds until the realm is destroyed. RMI_REALM_DESTROY finds only the
/// RD and the starting tables left of the realm, and makes them DELEGATED and zero.
pub fn teardown_steps_succeed()
    ensures recs { (m : Machine) (rec : ℕ) → is_rec_named m rec ≡ true → is_running (rec_at m rec).state ≡ false → (performed (RecDestroy rec) m).0.word ≡ Success }
    ensures pages { (m : Machine) (rd ipa address : ℕ) (ripas : RmmRipas) → IsProper m → rd_named m rd ≡ Some (number_of m rd) → ipa % 4096 ≡ 0 → is_protected (realm_at m rd) ipa ≡ true
        → (walk m (realm_at m rd) ipa 3).level ≡ 3 → entry_at m (walk m (realm_at m rd) ipa 3) ipa ≡ Assigned ripas address → (performed (DataDestroy rd ipa) m).0.word ≡ Success }
    ensures mappings { (m : Machine) (rd ipa level desc : ℕ) → rd_named m rd ≡ Some (number_of m rd) → m.settings.block_level ≤ level → (realm_at m rd).start_level ≤ level → level ≤ 3
        → ipa % entry_size level ≡ 0 → is_unprotected (realm_at m rd) ipa ≡ true → (walk m (realm_at m rd) ipa level).level ≡ level
        → entry_at m (walk m (realm_at m rd) ipa level) ipa ≡ AssignedNs desc → (performed (RttUnmapUnprotected rd ipa level) m).0.word ≡ Success }
    ensures tables { (m : Machine) (rd ipa level table : ℕ) → rd_named m rd ≡ Some (number_of m rd) → (realm_at m rd).start_level + 1 ≤ level → level ≤ 3 → ipa % entry_size (level - 1) ≡ 0
        → ipa < 2 ^ (realm_at m rd).s2sz → (walk m (realm_at m rd) ipa (level - 1)).level ≡ level - 1 → table_below m (entry_at m (walk m (realm_at m rd) ipa (level - 1)) ipa) ≡ Some table
        → has_live (page_in m table) ≡ false → (performed (RttDestroy rd ipa level) m).0.word ≡ Success }
    ensures realms { (m : Machine) (rd : ℕ) → IsProper m → rd_named m rd ≡ Some (number_of m rd) → ((granule : ℕ) → is_rec_in (number_of m rd) (granule_at m granule) ≡ false)
        → has_live_table m (realm_at m rd).first_table (realm_at m rd).table_count ≡ false → (performed (RealmDestroy rd) m).0.word ≡ Success }
    ensures granules { (m : Machine) (address : ℕ) → address % 4096 ≡ 0 → is_inside m address ≡ true → (granule_at m (number_of m address)).state ≡ Delegated
        → (performed (GranuleUndelegate address) m).0.word ≡ Success }
    ensures undelegated { (m : Machine) (address : ℕ) → IsProper m → (performed (GranuleUndelegate address) m).0.word ≡ Success → (granule_at (performed (GranuleUndelegate address) m).1 (number_of m address) ≡ of_no_realm Undelegated)
        × (page_in (performed (GranuleUndelegate address) m).1 (number_of m address) ≡ zero_page) }
    ensures delegated { (m : Machine) (address : ℕ) → IsProper m → (performed (GranuleDelegate address) m).0.word ≡ Success → (granule_at (performed (GranuleDelegate address) m).1 (number_of m address) ≡ of_no_realm Delegated)
        × (page_in (performed (GranuleDelegate address) m).1 (number_of m address) ≡ zero_page) }
    ensures next { (m : Machine) (rd spare table i : ℕ) → IsProper m → rd_named m rd ≡ Some (number_of m rd) → spare % 4096 ≡ 0 → is_inside m spare ≡ true → (granule_at m (number_of m spare)).state ≡ Delegated
        → IsTableOf m (number_of m rd) table → i < 512 → is_live (entry_in_page (page_in m table) i) ≡ true → HasNextStep m rd spare }
    ensures end { (m : Machine) (rd spare : ℕ) → IsProper m → rd_named m rd ≡ Some (number_of m rd) → spare % 4096 ≡ 0 → is_inside m spare ≡ true → (granule_at m (number_of m spare)).state ≡ Delegated
        → ((granule : ℕ) (rec : RmmRec) → granule_at m granule ≡ of_realm (number_of m rd) (Rec rec) → is_running rec.state ≡ false) → HasNextStep m rd spare ⊎ HasRemoval m rd }
    ensures nothing_left { (m : Machine) (rd granule : ℕ) → IsProper m → (performed (RealmDestroy rd) m).0.word ≡ Success → IsOfRealm m (Some (number_of m rd)) granule
        → (granule_at (performed (RealmDestroy rd) m).1 granule ≡ of_no_realm Delegated) × (page_in (performed (RealmDestroy rd) m).1 granule ≡ zero_page) }
    ensures nothing_else { (m : Machine) (rd granule : ℕ) → IsProper m → (performed (RealmDestroy rd) m).0.word ≡ Success → IsOfRealm m (Some (number_of m rd)) granule
        → (granule ≡ number_of m rd) ⊎ (((realm_at m rd).first_table ≤ granule) × (granule < (realm_at m rd).first_table + (realm_at m rd).table_count)) }
{}

/// If no REC of a realm runs, and some granule is DELEGATED, a sequence of calls destroys the realm and undelegates its
/// granules. All calls of the sequence succeed, and they are the calls of a teardown alone. After them each granule
/// that the realm has now is UNDELEGATED and zero, and the realm's VMID is free. The granules of other realms are as
/// they were. The DELEGATED granule is for the table of a block that has to be unfolded.
pub fn realms_can_be_torn_down()
    ensures { (m : Machine) (rd spare : ℕ) → IsProper m → rd_named m rd ≡ Some (number_of m rd) → (granule_at m spare).state ≡ Delegated
        → ((granule : ℕ) (rec : RmmRec) → granule_at m granule ≡ of_realm (number_of m rd) (Rec rec) → is_running rec.state ≡ false) → CanBeTornDown m rd }
{}

/// A realm is activated at most once. It is NEW when it is created, and RMI_REALM_ACTIVATE makes it ACTIVE only if it
/// is NEW. RMI_REC_ENTER of one of its RECs can make it SYSTEM_OFF if it is ACTIVE. Nothing else changes its state: no
/// other call, no step that a guest is given, and no interrupt. A REC is entered only while its realm is ACTIVE.
///
/// A realm that is created has what its parameters ask for. Its VMID is used then, if the machine has a flag for it.
/// The realm exists until its RMI_REALM_DESTROY, and keeps what its parameters asked for.
pub fn activated_once()
    ensures calls { (r : Registers) (m : Machine) → IsProper m → KeepsStates m (call_in r) (rmi r m).1 }
    ensures steps { (m : Machine) (rec : ℕ) (w : StepWords) → KeepsStates m None (queued m rec w).1 }
    ensures interrupts { (m : Machine) (rec : ℕ) → KeepsStates m None (interrupted m rec).1 }
    ensures stay { (r : Registers) (m : Machine) → IsProper m → KeepsRealms m (call_in r) (rmi r m).1 }
    ensures activated { (m : Machine) (rd : ℕ) → (performed (RealmActivate rd) m).0.word ≡ Success → IsRealmIn m (number_of m rd) New × IsRealmIn (performed (RealmActivate rd) m).1 (number_of m rd) Active }
    ensures created { (m : Machine) (rd params : ℕ) → (performed (RealmCreate rd params) m).0.word ≡ Success → IsRealmMadeOf m (performed (RealmCreate rd params) m).1 rd params }
    ensures entered { (m : Machine) (rec run : ℕ) → is_refusal (performed (RecEnter rec run) m).0.word ≡ false → (rd : ℕ) × ((granule_at m (number_of m rec)).owner ≡ Some rd) × IsRealmIn m rd Active }
{}

/// RMI_REALM_CREATE sets the first value of a realm's RIM. RMI_DATA_CREATE, RMI_RTT_INIT_RIPAS and RMI_REC_CREATE of a
/// REC that is measured extend the RIM while the realm is NEW. No other call changes it, and neither do steps that
/// guests are given, and interrupts. A page of data has the bytes of its source, measured as `rim_with_data` says. What
/// is measured is read from a page of the host outside the secure world, and so are parameters. A REC that is created
/// has what its parameters ask for.
pub fn rims_are_measured()
    ensures calls { (r : Registers) (m : Machine) → IsProper m → KeepsRims m (call_in r) (rmi r m).1 }
    ensures steps { (m : Machine) (rec : ℕ) (w : StepWords) → KeepsRims m None (queued m rec w).1 }
    ensures interrupts { (m : Machine) (rec : ℕ) → KeepsRims m None (interrupted m rec).1 }
    ensures measured { (m : Machine) (call : Call) (rd : ℕ) → Measures m call rd → (performed call m).0.word ≡ Success → (rim : List ℕ) × HasRim (performed call m).1 rd rim × IsMeasured m (Some call) rd rim }
    ensures content { (m : Machine) (rd page ipa source flags : ℕ) → IsProper m → (performed (DataCreate rd page ipa source flags) m).0.word ≡ Success
        → page_in (performed (DataCreate rd page ipa source flags) m).1 (number_of m page) ≡ page_in m (number_of m source) }
    ensures rec { (m : Machine) (rd rec params : ℕ) → IsProper m → (performed (RecCreate rd rec params) m).0.word ≡ Success → IsRecMadeOf m (performed (RecCreate rd rec params) m).1 rd rec params }
    ensures sources { (m : Machine) (call : Call) → IsProper m → (performed call m).0.word ≡ Success → IsFromHost m call }
{}

/// The RIPAS requests of RECs come from their guests alone. Only RMI_REC_ENTER of a REC and RMI_RTT_SET_RIPAS can
/// change the REC's request. RMI_RTT_SET_RIPAS begins at the base of the request, and leaves the rest of the request
/// from X1 on. Other calls, steps that a guest is given, and interrupts change no request.
///
/// A REC that is entered after an exit RIPAS_CHANGE has `no_request`, and any other REC the request that it had before.
/// A step of the guest asks for a range that `is_ripas_range` accepts, or leaves the request unchanged. The REC's exit
/// leaves it unchanged too. An RMI_REC_ENTER that is not refused is an entry, at most 16 steps, and an exit unless the
/// guest spins.
pub fn requests_are_the_guest_s()
    ensures calls { (r : Registers) (m : Machine) → KeepsRequests m (call_in r) (rmi r m).1 }
    ensures steps { (m : Machine) (rec : ℕ) (w : StepWords) → KeepsRequests m None (queued m rec w).1 }
    ensures interrupts { (m : Machine) (rec : ℕ) → KeepsRequests m None (interrupted m rec).1 }
    ensures entered { (m : Machine) (g address flags : ℕ) (rec : RmmRec) → (rec_in m g).exit ≡ RipasChange → (granule_at (after_entry m g address flags) g).state ≡ Rec rec → rec.ripas ≡ no_request }
    ensures kept { (m : Machine) (g address flags : ℕ) (rec : RmmRec) → (rec_in m g).exit ≢ RipasChange → (granule_at (after_entry m g address flags) g).state ≡ Rec rec → rec.ripas ≡ (rec_in m g).ripas }
    ensures asked { (m : Machine) (g flags : ℕ) (rec : RmmRec) → (granule_at (after_first_step m g flags) g).state ≡ Rec rec → (rec.ripas ≡ (rec_in m g).ripas) ⊎ IsAskedFor m g rec.ripas }
    ensures rest { (m : Machine) (rd rec base top : ℕ) → (performed (RttSetRipas rd rec base top) m).0.word ≡ Success
        → IsRestFrom m (performed (RttSetRipas rd rec base top) m).1 rec base (performed (RttSetRipas rd rec base top) m).0.x1 }
    ensures run { (m : Machine) (rec run : ℕ) → is_refusal (performed (RecEnter rec run) m).0.word ≡ false
        → HasRun (after_entry m (number_of m rec) run (flags_in (page_in m (number_of m run)))) (number_of m rec) (flags_in (page_in m (number_of m run))) 16 (performed (RecEnter rec run) m).0.word (performed (RecEnter rec run) m).1 }
    ensures left { (m : Machine) (g : ℕ) (exit : RecExit) (last : LastExit) → KeepsRequests m None (after_exit m g exit last) }
{}

/// In a realm that is no longer NEW, the RIPAS of protected addresses changes only as the guest asks, or to DESTROYED.
/// RMI_RTT_INIT_RIPAS and RMI_DATA_CREATE can make RIPAS RAM, if the realm is NEW. RMI_DATA_DESTROY can make it
/// DESTROYED where it was RAM, and RMI_RTT_DESTROY whatever it was. After RMI_DATA_DESTROY of a page, RIPAS is not RAM
/// there.
///
/// RMI_RTT_SET_RIPAS can give the RIPAS that a REC of the realm asks for, within the range of the REC's request. If it
/// succeeds, it changes RIPAS up to X1 and no further, and leaves the pages. X1 is at most the top of the request.
/// RMI_RTT_INIT_RIPAS does the same with RAM, without a request.
///
/// No other call changes the RIPAS of a protected address. Neither do stores and fills of the host, steps that guests
/// are given, and interrupts. A new realm has RIPAS EMPTY and no page at each protected address.
///
/// A guest's access to a protected address without RAM or without a page ends in an SEA or an exit. It reads and writes
/// nothing. If the host does not answer the last exit of a REC that it enters, the REC goes on with its registers and
/// steps, and has no results.
pub fn ripas_is_the_guest_s()
    ensures calls { (r : Registers) (m : Machine) → IsProper m → KeepsRipas m (call_in r) (rmi r m).1 }
    ensures taken { (m : Machine) (rd ipa x : ℕ) → IsProper m → (performed (DataDestroy rd ipa) m).0.word ≡ Success → IsBetween ipa (ipa + 4096) x
        → is_ram (ripas_at (performed (DataDestroy rd ipa) m).1 (realm_at m rd) x) ≡ false }
    ensures changed { (m : Machine) (rd rec base top : ℕ) → IsProper m → (performed (RttSetRipas rd rec base top) m).0.word ≡ Success
        → IsRipasSet m (performed (RttSetRipas rd rec base top) m).1 (realm_at m rd) (rec_at m rec).ripas.ripas base (performed (RttSetRipas rd rec base top) m).0.x1 × ((performed (RttSetRipas rd rec base top) m).0.x1 ≤ top)
        × ((performed (RttSetRipas rd rec base top) m).0.x1 ≤ (rec_at m rec).ripas.top) }
    ensures inited { (m : Machine) (rd base top : ℕ) → IsProper m → (performed (RttInitRipas rd base top) m).0.word ≡ Success
        → IsRipasSet m (performed (RttInitRipas rd base top) m).1 (realm_at m rd) Ram base (performed (RttInitRipas rd base top) m).0.x1 × ((performed (RttInitRipas rd base top) m).0.x1 ≤ top) }
    ensures new { (m : Machine) (rd params ipa : ℕ) (realm : RmmRealm) → IsProper m → (performed (RealmCreate rd params) m).0.word ≡ Success
        → (granule_at (performed (RealmCreate rd params) m).1 (number_of m rd)).state ≡ Rd realm → is_protected realm ipa ≡ true
        → entry_at (performed (RealmCreate rd params) m).1 (walk (performed (RealmCreate rd params) m).1 realm ipa 3) ipa ≡ Unassigned Empty }
    ensures reads { (m : Machine) (realm : RmmRealm) (rec flags ipa : ℕ) (size : AccessSize) → IsWithoutMemory m realm ipa
        → step_outcome m realm rec flags (Read ipa size) ≡ outcome_without_memory m realm 0x90000000 ipa }
    ensures writes { (m : Machine) (realm : RmmRealm) (rec flags ipa value : ℕ) (size : AccessSize) (outcome : StepOutcome) → IsWithoutMemory m realm ipa
        → (step_outcome m realm rec flags (Write ipa value size) ≡ outcome_without_memory m realm 0x90000000 ipa) × (after_step m realm rec (Write ipa value size) outcome ≡ m) }
    ensures fetches { (m : Machine) (realm : RmmRealm) (rec flags ipa : ℕ) → IsWithoutMemory m realm ipa → step_outcome m realm rec flags (Fetch ipa) ≡ outcome_without_memory m realm 0x80000000 ipa }
    ensures tried_again { (m : Machine) (g address flags : ℕ) (rec : RmmRec) → IsProper m → (granule_at m g).state ≡ Rec rec → IsUnanswered rec.exit rec.psci flags → IsAsLeft m (after_entry m g address flags) g rec address }
    ensures stores { (m : Machine) (address word : ℕ) → IsProper m → KeepsRipas m None (after_store m address word) }
    ensures fills { (m : Machine) (address value : ℕ) → IsProper m → KeepsRipas m None (after_fill m address value) }
    ensures steps { (m : Machine) (rec : ℕ) (w : StepWords) → IsProper m → KeepsRipas m None (queued m rec w).1 }
    ensures interrupts { (m : Machine) (rec : ℕ) → IsProper m → KeepsRipas m None (interrupted m rec).1 }
{}

/// Only the guest of a realm writes to the realm's pages. While a protected address of the realm has a page, only the
/// guest's writes change the bytes of the page. RMI_DATA_CREATE and RMI_DATA_CREATE_UNKNOWN alone give a protected
/// address a page, where there was none. RMI_DATA_DESTROY alone takes it. So a page replaces another one only after
/// RMI_DATA_DESTROY of the other one.
///
/// RMI_DATA_CREATE gives the bytes of a page of the host while the realm is NEW, and RMI_DATA_CREATE_UNKNOWN gives
/// zeros. Each address of the IPA granule leads to its own offset in the page. While the page is there, a call changes
/// its bytes only if it enters a REC of the realm. The entry and the exit of the REC keep the bytes, and so does each
/// step that is no write.
///
/// A step is performed for the realm that owns the REC. Stores and fills of the host, steps that guests are given, and
/// interrupts change neither the pages of protected addresses nor their bytes.
///
/// A guest reads the bytes of the page that a protected address leads to, if RIPAS is RAM. At an unprotected address it
/// reads bytes of the host outside the secure world. A write at a protected address changes no bytes at protected
/// addresses of other pages or realms. A write at an unprotected address changes no bytes at protected addresses.
pub fn memory_is_the_guest_s()
    ensures calls { (r : Registers) (m : Machine) → IsProper m → KeepsLocations m (call_in r) (rmi r m).1 }
    ensures stores { (m : Machine) (address word : ℕ) → IsProper m → KeepsLocations m None (after_store m address word) }
    ensures fills { (m : Machine) (address value : ℕ) → IsProper m → KeepsLocations m None (after_fill m address value) }
    ensures steps { (m : Machine) (rec : ℕ) (w : StepWords) → IsProper m → KeepsLocations m None (queued m rec w).1 }
    ensures interrupts { (m : Machine) (rec : ℕ) → IsProper m → KeepsLocations m None (interrupted m rec).1 }
    ensures created { (m : Machine) (rd page ipa source flags : ℕ) → IsProper m → (performed (DataCreate rd page ipa source flags) m).0.word ≡ Success
        → IsPageAt (performed (DataCreate rd page ipa source flags) m).1 (realm_at m rd) ipa page Ram }
    ensures created_unknown { (m : Machine) (rd page ipa : ℕ) → IsProper m → (performed (DataCreateUnknown rd page ipa) m).0.word ≡ Success
        → IsPageAt (performed (DataCreateUnknown rd page ipa) m).1 (realm_at m rd) ipa page (ripas_at m (realm_at m rd) ipa) }
    ensures called { (r : Registers) (m : Machine) → IsProper m → KeepsContents m (call_in r) (rmi r m).1 }
    ensures stored { (m : Machine) (address word : ℕ) → IsProper m → KeepsContents m None (after_store m address word) }
    ensures filled { (m : Machine) (address value : ℕ) → IsProper m → KeepsContents m None (after_fill m address value) }
    ensures given { (m : Machine) (rec : ℕ) (w : StepWords) → IsProper m → KeepsContents m None (queued m rec w).1 }
    ensures ended { (m : Machine) (rec : ℕ) → IsProper m → KeepsContents m None (interrupted m rec).1 }
    ensures reads { (m : Machine) (rd rec flags ipa : ℕ) (size : AccessSize) (realm : RmmRealm) (page : List ℕ) → IsProper m → (granule_at m rd).state ≡ Rd realm → is_protected realm ipa ≡ true
        → content_at m realm ipa ≡ Some page → ripas_at m realm ipa ≡ Ram → step_outcome m realm rec flags (Read ipa size) ≡ IsResult (IsRead (value_in page size ipa)) }
    ensures entered { (m : Machine) (g address flags : ℕ) → IsProperRun m g → KeepsContents m None (after_entry m g address flags) }
    ensures stepped { (m : Machine) (g flags : ℕ) → IsProperRun m g → is_write (first_step m g) ≡ false → KeepsContents m None (after_first_step m g flags) }
    ensures step_writes { (m : Machine) (rd other g flags ipa value x : ℕ) (size : AccessSize) (realm its : RmmRealm) → IsProperRun m g → (granule_at m g).owner ≡ Some rd → (granule_at m rd).state ≡ Rd realm → (granule_at m other).state ≡ Rd its
        → first_step m g ≡ Write ipa value size → is_protected its x ≡ true → (is_protected realm ipa ≡ false) ⊎ ((other ≢ rd) ⊎ (x / 4096 ≢ ipa / 4096)) → content_at (after_first_step m g flags) its x ≡ content_at m its x }
    ensures left { (m : Machine) (g : ℕ) (exit : RecExit) (last : LastExit) → IsProperRun m g → KeepsContents m None (after_exit m g exit last) }
    ensures upper_reads { (m : Machine) (realm : RmmRealm) (rec flags ipa value : ℕ) (size : AccessSize) → IsProper m → is_protected realm ipa ≡ false
        → step_outcome m realm rec flags (Read ipa size) ≡ IsResult (IsRead value) → IsHostValue m size ipa value }
    ensures performed { (m : Machine) (rd g flags : ℕ) (realm : RmmRealm) → (granule_at m g).owner ≡ Some rd → (granule_at m rd).state ≡ Rd realm → (rec_in m g).step_count ≢ 0 → IsStepFor m realm g flags }
    ensures upper_writes { (m : Machine) (rd other rec ipa value x : ℕ) (size : AccessSize) (realm its : RmmRealm) (outcome : StepOutcome) → IsProper m → (granule_at m rd).state ≡ Rd realm → (granule_at m other).state ≡ Rd its
        → is_protected realm ipa ≡ false → is_protected its x ≡ true → content_at (after_step m realm rec (Write ipa value size) outcome) its x ≡ content_at m its x }
    ensures writes { (m : Machine) (rd other rec ipa value x : ℕ) (size : AccessSize) (realm its : RmmRealm) (outcome : StepOutcome) → IsProper m → (granule_at m rd).state ≡ Rd realm → (granule_at m other).state ≡ Rd its
        → is_protected realm ipa ≡ true → is_protected its x ≡ true → (other ≢ rd) ⊎ (x / 4096 ≢ ipa / 4096) → content_at (after_step m realm rec (Write ipa value size) outcome) its x ≡ content_at m its x }
{}

/// RMI_RTT_CREATE and RMI_RTT_FOLD undo each other. Right after a successful RMI_RTT_CREATE, RMI_RTT_FOLD with the same
/// RD, address and level succeeds and undoes the creation. And RMI_RTT_CREATE undoes RMI_RTT_FOLD, with the granule
/// that comes back. Then each granule has the attributes that it had before both, and each entry of each table is as it
/// was.
///
/// A table is folded only if the resulting entry can replace it. After either call alone, each address leads to the
/// same memory as before.
pub fn fold_and_unfold()
    ensures created { (m : Machine) (rd rtt ipa level : ℕ) → IsProper m → (performed (RttCreate rd rtt ipa level) m).0.word ≡ Success
        → ((performed (RttFold rd ipa level) (performed (RttCreate rd rtt ipa level) m).1).0.word ≡ Success)
        × IsAlike m (performed (RttFold rd ipa level) (performed (RttCreate rd rtt ipa level) m).1).1 }
    ensures folded { (m : Machine) (rd ipa level : ℕ) → IsProper m → (performed (RttFold rd ipa level) m).0.word ≡ Success
        → ((performed (RttCreate rd (performed (RttFold rd ipa level) m).0.x1 ipa level) (performed (RttFold rd ipa level) m).1).0.word ≡ Success)
        × IsAlike m (performed (RttCreate rd (performed (RttFold rd ipa level) m).0.x1 ipa level) (performed (RttFold rd ipa level) m).1).1 }
    ensures only { (m : Machine) (rd ipa level : ℕ) → IsProper m → (performed (RttFold rd ipa level) m).0.word ≡ Success
        → CanReplaceTable m (entry_at (performed (RttFold rd ipa level) m).1 (walk m (realm_at m rd) ipa (level - 1)) ipa) level }
    ensures memory_created { (m : Machine) (rd rtt ipa level x : ℕ) → IsProper m → (performed (RttCreate rd rtt ipa level) m).0.word ≡ Success → x < 2 ^ (realm_at m rd).s2sz
        → location_at (performed (RttCreate rd rtt ipa level) m).1 (realm_at m rd) x ≡ location_at m (realm_at m rd) x }
    ensures memory_folded { (m : Machine) (rd ipa level x : ℕ) → IsProper m → (performed (RttFold rd ipa level) m).0.word ≡ Success → x < 2 ^ (realm_at m rd).s2sz
        → location_at (performed (RttFold rd ipa level) m).1 (realm_at m rd) x ≡ location_at m (realm_at m rd) x }
{}

/// A call leaves the granules of other realms unchanged. It changes only granules of the realm that it names by an RD
/// or a REC, and granules that are UNDELEGATED or DELEGATED. So it keeps the RDs, tables, pages and RECs of all other
/// realms. An UNDELEGATED granule changes only if it is delegated, or if RMI_REC_ENTER writes its page. A granule that
/// changes so is outside the secure world.
///
/// Stores and fills of the host change the granule of their address alone, if it is UNDELEGATED. A step that a guest is
/// given changes only its REC, and an interrupt only its REC and the REC's run page. A write of a guest changes only
/// pages of its realm, and pages of the host outside the secure world. At a protected address it changes no page of the
/// host.
///
/// Calls keep the settings and the number of granules. They keep all VMIDs but that of a realm that is created or
/// destroyed. Stores, fills, steps that guests are given, interrupts, and steps of guests keep settings and VMIDs.
/// RMI_REC_CREATE alone makes RECs, and no REC comes to another realm.
pub fn other_realms_stay()
    ensures calls { (r : Registers) (m : Machine) (granule : ℕ) → IsProper m → IsOfAnother m (call_in r) granule → IsSameAt m (rmi r m).1 granule }
    ensures hosts { (r : Registers) (m : Machine) (granule : ℕ) → IsProper m → (granule_at m granule).state ≡ Undelegated → IsSameAt m (rmi r m).1 granule ⊎ IsHostChanged m (rmi r m).1 (call_in r) granule }
    ensures stores { (m : Machine) (address word granule : ℕ) → (granule_at m granule).state ≢ Undelegated → IsSameAt m (after_store m address word) granule }
    ensures fills { (m : Machine) (address value granule : ℕ) → (granule_at m granule).state ≢ Undelegated → IsSameAt m (after_fill m address value) granule }
    ensures vmids { (r : Registers) (m : Machine) → IsProper m → changes_vmids (call_in r) ≡ false → (rmi r m).1.vmids ≡ m.vmids }
    ensures stored { (m : Machine) (address word : ℕ) → (after_store m address word).granules ≡ m.granules }
    ensures filled { (m : Machine) (address value : ℕ) → (after_fill m address value).granules ≡ m.granules }
    ensures steps { (m : Machine) (rec granule : ℕ) (w : StepWords) → granule ≢ number_of m rec → IsSameAt m (queued m rec w).1 granule }
    ensures interrupts { (m : Machine) (rec granule : ℕ) → granule ≢ number_of m rec → (granule_at m granule).state ≢ Undelegated → IsSameAt m (interrupted m rec).1 granule }
    ensures ended { (m : Machine) (rec granule : ℕ) → IsProper m → (granule_at m granule).state ≡ Undelegated → IsSameAt m (interrupted m rec).1 granule ⊎ IsRunPage m (interrupted m rec).1 rec granule }
    ensures writes { (m : Machine) (rd rec ipa value granule : ℕ) (size : AccessSize) (outcome : StepOutcome) (realm : RmmRealm) → IsProper m → (granule_at m rd).state ≡ Rd realm
        → granule_at m granule ≢ of_realm rd Data → (granule_at m granule).state ≢ Undelegated → IsSameAt m (after_step m realm rec (Write ipa value size) outcome) granule }
    ensures secure { (m : Machine) (rd rec ipa value granule : ℕ) (size : AccessSize) (outcome : StepOutcome) (realm : RmmRealm) → IsProper m → (granule_at m rd).state ≡ Rd realm
        → (granule_at m granule).state ≡ Undelegated → is_secure m (m.settings.base + granule * 4096) ≡ true → IsSameAt m (after_step m realm rec (Write ipa value size) outcome) granule }
    ensures lower { (m : Machine) (rd rec ipa value granule : ℕ) (size : AccessSize) (outcome : StepOutcome) (realm : RmmRealm) → IsProper m → (granule_at m rd).state ≡ Rd realm → is_protected realm ipa ≡ true
        → (granule_at m granule).state ≡ Undelegated → IsSameAt m (after_step m realm rec (Write ipa value size) outcome) granule }
    ensures store_beside { (m : Machine) (address word granule : ℕ) → granule ≢ number_of m address → IsSameAt m (after_store m address word) granule }
    ensures fill_beside { (m : Machine) (address value granule : ℕ) → granule ≢ number_of m address → IsSameAt m (after_fill m address value) granule }
    ensures recs { (r : Registers) (m : Machine) → IsProper m → KeepsRecs m (call_in r) (rmi r m).1 }
    ensures vmid { (r : Registers) (m : Machine) (vmid : ℕ) → IsProper m → IsOtherVmid m (call_in r) vmid → is_vmid_used (rmi r m).1 vmid ≡ is_vmid_used m vmid }
    ensures store_settings { (m : Machine) (address word : ℕ) → KeepsSettings m (after_store m address word) }
    ensures fill_settings { (m : Machine) (address value : ℕ) → KeepsSettings m (after_fill m address value) }
    ensures given_settings { (m : Machine) (rec : ℕ) (w : StepWords) → IsProper m → KeepsSettings m (queued m rec w).1 }
    ensures ended_settings { (m : Machine) (rec : ℕ) → IsProper m → KeepsSettings m (interrupted m rec).1 }
    ensures guest_settings { (m : Machine) (g flags : ℕ) → IsProperRun m g → KeepsSettings m (after_first_step m g flags) }
    ensures settings { (r : Registers) (m : Machine) → IsProper m → ((rmi r m).1.settings ≡ m.settings) × (length (rmi r m).1.granules ≡ length m.granules) }
{}

/// The invariant `IsProper` rules out certain wrong definitions of RMI commands: the resulting machines do not satisfy
/// it. One is an RTT_DESTROY that keeps the entry which leads to the table, and another a command that maps a page that
/// is mapped already. A REC_DESTROY must not leave the realm's count of RECs as it was, and a REALM_DESTROY must not
/// leave granules of the realm. A granule that becomes DELEGATED has to be wiped.
pub fn wrong_definitions_are_detected()
    ensures entry_left { (m : Machine) (rd table i g : ℕ) → IsProper m → IsTableOf m rd table → i < 512 → table_below m (entry_in_page (page_in m table) i) ≡ Some g → IsProper (with_blank m g Delegated) → ⊥ }
    ensures named_twice { (m : Machine) (proper : IsProper m) (rd s x i p y j q address other : ℕ) (a b : RmmRipas) → IsTableOf m rd x → IsTableOf m s y → i < 512 → j < 512
        → entry_in_page (page_in m x) i ≡ Assigned a address → entry_in_page (page_in m y) j ≡ Assigned b other → p < page_count (proper.linked.level x) → q < page_count (proper.linked.level y)
        → address + p * 4096 ≡ other + q * 4096 → (x ≡ y) × (i ≡ j) × (p ≡ q) }
    ensures rec_still_counted { (m : Machine) (g : ℕ) (rec : RmmRec) → IsProper m → (granule_at m g).state ≡ Rec rec
        → IsProper (with_blank (with_aux m g (of_no_realm Delegated) m.settings.aux) g Delegated) → ⊥ }
    ensures owner_removed { (m : Machine) (rd g : ℕ) (realm : RmmRealm) → IsProper m → (granule_at m rd).state ≡ Rd realm → (granule_at m g).owner ≡ Some rd
        → ((k : ℕ) → k < realm.table_count → g ≢ realm.first_table + k) → IsProper (with_blank (without_tables m realm realm.table_count) rd Delegated) → ⊥ }
    ensures wipe_left_out { (m : Machine) (g : ℕ) → IsProper m → (granule_at m g).state ≡ Delegated → page_in m g ≡ zero_page }
{}
