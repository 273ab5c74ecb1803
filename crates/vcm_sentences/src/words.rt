//! The words that statements go by, as far as rules tell them apart.

ghost use Rattle.std.specs.Prelude.{◌≡◌};
ghost use Rattle.vcm_sentences.specs.Parted.{word_in};

use vcm_num::look_up;

/// The word that a statement goes by.
#[derive(Clone, Copy)]
pub enum MajorWord {
    /// ACLRAT.
    Acceleration,
    /// ASSIGN.
    Assign,
    /// CALIB.
    Calibrate,
    /// CALL.
    Call,
    /// CASE.
    Case,
    /// DATDEF.
    DatumDefinition,
    /// DATSET.
    DatumSet,
    /// DECL.
    Declare,
    /// DFTCAS.
    DefaultCase,
    /// DO.
    Do,
    /// ELSE.
    Else,
    /// ENDCAS.
    EndCase,
    /// ENDDO.
    EndDo,
    /// ENDGO.
    EndGo,
    /// ENDIF.
    EndIf,
    /// ENDMAC.
    EndMacro,
    /// ENDMES.
    EndMeasure,
    /// ENDSEL.
    EndSelect,
    /// ERROR.
    Error,
    /// EXTFIL.
    ExternalFile,
    /// XTERN.
    External,
    /// FEAT.
    Feature,
    /// FEDRAT.
    FeedRate,
    /// FINPOS.
    FinePosition,
    /// FLY.
    Fly,
    /// FROM.
    From,
    /// GOHOME.
    GoHome,
    /// GOTARG.
    GoTarget,
    /// GOTO.
    Goto,
    /// IF.
    If,
    /// INCLUD.
    Include,
    /// ITERAT.
    Iterate,
    /// JUMPTO.
    JumpTo,
    /// LOCATE.
    Locate,
    /// MACRO.
    Macro,
    /// MEAS.
    Measure,
    /// MODE.
    Mode,
    /// OBTAIN.
    Obtain,
    /// OUTPUT.
    Output,
    /// PSTHRU.
    PassThrough,
    /// PAMEAS.
    PathMeasure,
    /// PTMEAS.
    PointMeasure,
    /// POP.
    Pop,
    /// PRCOMP.
    ProbeCompensation,
    /// PROMPT.
    Prompt,
    /// RAPID.
    Rapid,
    /// READ.
    Read,
    /// RECALL.
    Recall,
    /// RMEAS.
    RelativeMeasure,
    /// ROTAB.
    RotaryTable,
    /// ROTATE.
    Rotate,
    /// SCAN.
    Scan,
    /// SELECT.
    Select,
    /// CRSLCT.
    SelectCarriage,
    /// SNSLCT.
    SelectSensor,
    /// CZSLCT.
    SelectZone,
    /// SNSET.
    SensorSetting,
    /// TEXT.
    Text,
    /// TRANS.
    Translate,
    /// UNITS.
    Units,
    /// Any other word, or none.
    Other,
}

// The words that rules tell apart, the frequent ones first.
const WORDS: &[(&[u8], MajorWord)] = &[
    (b"GOTO", MajorWord::Goto),
    (b"PTMEAS", MajorWord::PointMeasure),
    (b"MEAS", MajorWord::Measure),
    (b"ENDMES", MajorWord::EndMeasure),
    (b"FEAT", MajorWord::Feature),
    (b"OUTPUT", MajorWord::Output),
    (b"TEXT", MajorWord::Text),
    (b"ASSIGN", MajorWord::Assign),
    (b"IF", MajorWord::If),
    (b"ELSE", MajorWord::Else),
    (b"ENDIF", MajorWord::EndIf),
    (b"DO", MajorWord::Do),
    (b"ENDDO", MajorWord::EndDo),
    (b"CALL", MajorWord::Call),
    (b"MACRO", MajorWord::Macro),
    (b"ENDMAC", MajorWord::EndMacro),
    (b"JUMPTO", MajorWord::JumpTo),
    (b"OBTAIN", MajorWord::Obtain),
    (b"SNSET", MajorWord::SensorSetting),
    (b"TRANS", MajorWord::Translate),
    (b"ROTATE", MajorWord::Rotate),
    (b"RECALL", MajorWord::Recall),
    (b"DATDEF", MajorWord::DatumDefinition),
    (b"DATSET", MajorWord::DatumSet),
    (b"GOTARG", MajorWord::GoTarget),
    (b"ENDGO", MajorWord::EndGo),
    (b"GOHOME", MajorWord::GoHome),
    (b"MODE", MajorWord::Mode),
    (b"FEDRAT", MajorWord::FeedRate),
    (b"ACLRAT", MajorWord::Acceleration),
    (b"FINPOS", MajorWord::FinePosition),
    (b"RAPID", MajorWord::Rapid),
    (b"PRCOMP", MajorWord::ProbeCompensation),
    (b"SNSLCT", MajorWord::SelectSensor),
    (b"UNITS", MajorWord::Units),
    (b"DECL", MajorWord::Declare),
    (b"SELECT", MajorWord::Select),
    (b"CASE", MajorWord::Case),
    (b"ENDCAS", MajorWord::EndCase),
    (b"DFTCAS", MajorWord::DefaultCase),
    (b"ENDSEL", MajorWord::EndSelect),
    (b"FROM", MajorWord::From),
    (b"FLY", MajorWord::Fly),
    (b"ERROR", MajorWord::Error),
    (b"PAMEAS", MajorWord::PathMeasure),
    (b"SCAN", MajorWord::Scan),
    (b"RMEAS", MajorWord::RelativeMeasure),
    (b"CALIB", MajorWord::Calibrate),
    (b"ROTAB", MajorWord::RotaryTable),
    (b"EXTFIL", MajorWord::ExternalFile),
    (b"INCLUD", MajorWord::Include),
    (b"XTERN", MajorWord::External),
    (b"PSTHRU", MajorWord::PassThrough),
    (b"CZSLCT", MajorWord::SelectZone),
    (b"CRSLCT", MajorWord::SelectCarriage),
    (b"PROMPT", MajorWord::Prompt),
    (b"READ", MajorWord::Read),
    (b"LOCATE", MajorWord::Locate),
    (b"ITERAT", MajorWord::Iterate),
    (b"POP", MajorWord::Pop),
];

impl MajorWord {
    /// Whether it is this one.
    pub fn is(self, other: MajorWord) -> bool {
        self as u8 == other as u8
    }
}

/// The word that these bytes spell.
pub(crate) fn word_of(bytes: &[u8]) -> MajorWord
    ensures { result ≡ word_in bytes.now }
{
    look_up(WORDS, bytes).unwrap_or(MajorWord::Other)
}
