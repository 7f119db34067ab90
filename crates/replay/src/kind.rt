// What the cases of a block are of: the kinds by the numbers that the list has, and by the names that are printed.
use std::fmt;
use words::Operation;

#[derive(Clone, Copy, Debug, PartialEq, Eq)]
pub(crate) enum Kind {
    Arithmetic(Operation),
    Draw,
    Draws,
    Product,
    RestartSeed,
    Dot,
    Norm,
    Unit,
    Argmax,
    Argmin,
    Pick,
    LnGamma,
    LogVmfNorm,
    EstimateKappa,
    KappaMax,
    Spherical,
    Mixture,
    MixtureDigests,
    Auto,
    Listing,
    LnGammaHalf,
    Unknown(u64),
}

impl From<u64> for Kind {
    fn from(number: u64) -> Kind {
        match number {
            1..=6 => Kind::Arithmetic(Operation::from(number)),
            7 => Kind::Draw,
            8 => Kind::Draws,
            9 => Kind::Product,
            10 => Kind::RestartSeed,
            11 => Kind::Dot,
            12 => Kind::Norm,
            13 => Kind::Unit,
            14 => Kind::Argmax,
            15 => Kind::Argmin,
            16 => Kind::Pick,
            17 => Kind::LnGamma,
            18 => Kind::LogVmfNorm,
            19 => Kind::EstimateKappa,
            20 => Kind::KappaMax,
            21 => Kind::Spherical,
            22 => Kind::Mixture,
            23 => Kind::MixtureDigests,
            24 => Kind::Auto,
            25 => Kind::Listing,
            26 => Kind::LnGammaHalf,
            _ => Kind::Unknown(number),
        }
    }
}

impl fmt::Display for Kind {
    fn fmt<W: fmt::Write>(&self, f: &mut fmt::Formatter<W>) -> fmt::Result {
        f.write_str(match self {
            Kind::Arithmetic(Operation::Root) => "root",
            Kind::Arithmetic(Operation::Exp) => "exp",
            Kind::Arithmetic(Operation::Ln) => "ln",
            Kind::Arithmetic(Operation::Max) => "max",
            Kind::Arithmetic(Operation::Clamp) => "clamp",
            Kind::Arithmetic(Operation::Abs) => "abs",
            Kind::Draw => "next_u64, next_f64",
            Kind::Draws => "runs of 64 draws",
            Kind::Product => "wrapping_mul_u64",
            Kind::RestartSeed => "restart_seed",
            Kind::Dot => "dot",
            Kind::Norm => "norm",
            Kind::Unit => "unit",
            Kind::Argmax => "argmax",
            Kind::Argmin => "argmin",
            Kind::Pick => "weighted_pick",
            Kind::LnGamma => "ln_gamma",
            Kind::LogVmfNorm => "log_vmf_norm",
            Kind::EstimateKappa => "estimate_kappa",
            Kind::KappaMax => "kappa_max",
            Kind::Spherical => "spherical_kmeans",
            Kind::Mixture => "movmf_with",
            Kind::MixtureDigests => "movmf_with, by digests",
            Kind::Auto => "movmf_auto_with",
            Kind::Listing => "listings of leaf files",
            Kind::LnGammaHalf => "ln_gamma_half",
            Kind::Unknown(_) => "unknown kind",
        })
    }
}
