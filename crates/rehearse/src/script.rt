// The lines of a script.
use host::Limits;
use std::str::FromStr;
use values::{Content, Path, ValueFault};

#[derive(Clone, Copy)]
pub enum Call {
    Mkdir(Path),
    Creat(Path, Content),
    Rm(Path),
    Look(Path),
    Children(Path),
    Free,
}

// Why a line is no call.
#[derive(Clone, Copy)]
pub enum ScriptFault {
    Unknown,
    Value(ValueFault),
}

impl From<ValueFault> for ScriptFault {
    fn from(fault: ValueFault) -> ScriptFault {
        ScriptFault::Value(fault)
    }
}

// `open CAPACITY ALLOWANCE`
pub(crate) fn parse_limits(line: &str) -> Option<Limits> {
    let (word, numbers) = line.split_once(' ')?;
    let (capacity, allowance) = numbers.split_once(' ')?;
    if word != "open" {
        return None;
    }
    Some(Limits {
        capacity: capacity.parse::<u16>().ok()?,
        allowance: allowance.parse::<u16>().ok()?,
    })
}

impl FromStr for Call {
    type Err = ScriptFault;

    // The content of a file is all that stands behind its path.
    fn from_str(line: &str) -> Result<Call, ScriptFault> {
        let (word, rest) = line.split_once(' ').unwrap_or((line, ""));
        match word {
            "mkdir" => Ok(Call::Mkdir(Path::try_from(rest.as_bytes())?)),
            "creat" => {
                let (path, content) = rest.split_once(' ').unwrap_or((rest, ""));
                Ok(Call::Creat(
                    Path::try_from(path.as_bytes())?,
                    Content::try_from(content.as_bytes())?,
                ))
            }
            "rm" => Ok(Call::Rm(Path::try_from(rest.as_bytes())?)),
            "look" => Ok(Call::Look(Path::try_from(rest.as_bytes())?)),
            "children" => Ok(Call::Children(Path::try_from(rest.as_bytes())?)),
            "free" => Ok(Call::Free),
            _ => Err(ScriptFault::Unknown),
        }
    }
}

impl Call {
    // The path that it names.
    pub(crate) fn path(self) -> Option<Path> {
        match self {
            Call::Mkdir(p) | Call::Creat(p, _) | Call::Rm(p) | Call::Look(p) | Call::Children(p) =>
                Some(p),
            Call::Free => None,
        }
    }
}
