//! The names of failure conditions.
ghost use Rattle.std.specs.Prelude.{◌≡◌};
ghost use Rattle.rmm_checks.specs.Names as names;

use rmm_model::Condition;

// The conditions, each once.
const CONDITIONS: [Condition; 76] = [
    Condition::Version,
    Condition::GranAlign,
    Condition::GranBound,
    Condition::GranState,
    Condition::GranGpt,
    Condition::RdAlign,
    Condition::RdBound,
    Condition::RdState,
    Condition::ParamsAlign,
    Condition::ParamsBound,
    Condition::ParamsPas,
    Condition::ParamsValid,
    Condition::ParamsSupp,
    Condition::RttNumLevel,
    Condition::RttAlign,
    Condition::RttBound,
    Condition::RttState,
    Condition::Alias,
    Condition::VmidValid,
    Condition::RealmState,
    Condition::RealmLive,
    Condition::LevelBound,
    Condition::IpaAlign,
    Condition::IpaBound,
    Condition::RttWalk,
    Condition::RtteState,
    Condition::RttLive,
    Condition::RttHomo,
    Condition::RttBlock,
    Condition::DescBound,
    Condition::DataAlign,
    Condition::DataBound,
    Condition::DataState,
    Condition::SrcAlign,
    Condition::SrcBound,
    Condition::SrcPas,
    Condition::FlagsValid,
    Condition::RtteRipas,
    Condition::Size,
    Condition::BaseGranAlign,
    Condition::TopGranAlign,
    Condition::BaseBound,
    Condition::TopBound,
    Condition::BaseAlign,
    Condition::NoProgress,
    Condition::RecAlign,
    Condition::RecBound,
    Condition::RecGranState,
    Condition::NumAux,
    Condition::AuxAlign,
    Condition::AuxBound,
    Condition::AuxAlias,
    Condition::AuxState,
    Condition::MpidrIndex,
    Condition::NumRecs,
    Condition::RecState,
    Condition::RecOwner,
    Condition::RunAlign,
    Condition::RunBound,
    Condition::RunPas,
    Condition::RealmNew,
    Condition::SystemOff,
    Condition::RecRunnable,
    Condition::RecMmio,
    Condition::RecPsci,
    Condition::RecGicv3,
    Condition::CallingAlign,
    Condition::CallingBound,
    Condition::CallingState,
    Condition::TargetAlign,
    Condition::TargetBound,
    Condition::TargetState,
    Condition::Pending,
    Condition::Owner,
    Condition::Target,
    Condition::Status,
];

/// Returns the name of a failure condition, as traces write it. CHECKS.md says which names are from RMM 1.0.
pub fn condition_name(condition: Condition) -> &'static str
    ensures { result.now ≡ names.name_of condition }
{
    match condition {
        Condition::Version => "version",
        Condition::GranAlign => "gran_align",
        Condition::GranBound => "gran_bound",
        Condition::GranState => "gran_state",
        Condition::GranGpt => "gran_gpt",
        Condition::RdAlign => "rd_align",
        Condition::RdBound => "rd_bound",
        Condition::RdState => "rd_state",
        Condition::ParamsAlign => "params_align",
        Condition::ParamsBound => "params_bound",
        Condition::ParamsPas => "params_pas",
        Condition::ParamsValid => "params_valid",
        Condition::ParamsSupp => "params_supp",
        Condition::RttNumLevel => "rtt_num_level",
        Condition::RttAlign => "rtt_align",
        Condition::RttBound => "rtt_bound",
        Condition::RttState => "rtt_state",
        Condition::Alias => "alias",
        Condition::VmidValid => "vmid_valid",
        Condition::RealmState => "realm_state",
        Condition::RealmLive => "realm_live",
        Condition::LevelBound => "level_bound",
        Condition::IpaAlign => "ipa_align",
        Condition::IpaBound => "ipa_bound",
        Condition::RttWalk => "rtt_walk",
        Condition::RtteState => "rtte_state",
        Condition::RttLive => "rtt_live",
        Condition::RttHomo => "rtt_homo",
        Condition::RttBlock => "rtt_block",
        Condition::DescBound => "desc_bound",
        Condition::DataAlign => "data_align",
        Condition::DataBound => "data_bound",
        Condition::DataState => "data_state",
        Condition::SrcAlign => "src_align",
        Condition::SrcBound => "src_bound",
        Condition::SrcPas => "src_pas",
        Condition::FlagsValid => "flags_valid",
        Condition::RtteRipas => "rtte_ripas",
        Condition::Size => "size",
        Condition::BaseGranAlign => "base_gran_align",
        Condition::TopGranAlign => "top_gran_align",
        Condition::BaseBound => "base_bound",
        Condition::TopBound => "top_bound",
        Condition::BaseAlign => "base_align",
        Condition::NoProgress => "no_progress",
        Condition::RecAlign => "rec_align",
        Condition::RecBound => "rec_bound",
        Condition::RecGranState => "rec_gran_state",
        Condition::NumAux => "num_aux",
        Condition::AuxAlign => "aux_align",
        Condition::AuxBound => "aux_bound",
        Condition::AuxAlias => "aux_alias",
        Condition::AuxState => "aux_state",
        Condition::MpidrIndex => "mpidr_index",
        Condition::NumRecs => "num_recs",
        Condition::RecState => "rec_state",
        Condition::RecOwner => "rec_owner",
        Condition::RunAlign => "run_align",
        Condition::RunBound => "run_bound",
        Condition::RunPas => "run_pas",
        Condition::RealmNew => "realm_new",
        Condition::SystemOff => "system_off",
        Condition::RecRunnable => "rec_runnable",
        Condition::RecMmio => "rec_mmio",
        Condition::RecPsci => "rec_psci",
        Condition::RecGicv3 => "rec_gicv3",
        Condition::CallingAlign => "calling_align",
        Condition::CallingBound => "calling_bound",
        Condition::CallingState => "calling_state",
        Condition::TargetAlign => "target_align",
        Condition::TargetBound => "target_bound",
        Condition::TargetState => "target_state",
        Condition::Pending => "pending",
        Condition::Owner => "owner",
        Condition::Target => "target",
        Condition::Status => "status",
    }
}

// The first of `conditions` that has the name `text`.
fn find_named(text: &str, conditions: &[Condition]) -> Option<Condition>
    ensures { result ≡ names.find_named text.now conditions.now }
{
    for condition in conditions {
        if text == condition_name(*condition) {
            return Some(*condition);
        }
    }
    None
}

/// Returns the failure condition with the name `text`; `None` if no condition has it.
#[tactic(auto, unfolding(crate::specs::Names::condition_named))]
pub fn condition_named(text: &str) -> Option<Condition>
    ensures { result ≡ names.condition_named text.now }
{
    find_named(text, &CONDITIONS)
}
