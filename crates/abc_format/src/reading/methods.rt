// Methods, metadata and method bodies. AVM2 Overview, chapter 4.

ghost use Rattle.abc_format.specs.Fields.{Answers};
ghost use Rattle.abc_format.specs.Reading.{read_body, read_code, read_exception, read_item, read_metadata, read_method, read_option, read_options, read_param_names};

use crate::index::{MethodIndex, MultinameIndex, StringIndex};
use crate::reading::lists::{Readable, read_counted, read_times};
use crate::reading::unread::Unread;
use crate::reason::AbcRefusal;
use crate::records::{ExceptionInfo, ItemInfo, MetadataInfo, MethodBody, MethodInfo, OptionDetail};
use crate::tables::Tables;
use flex_base::{Bytes, Sequence};
use std::alloc::Global;

impl Readable for MethodInfo {
    ghost reading = { read_method };

    #[tactic(auto, unfolding(crate::specs::Reading::read_method))]
    fn read(
        alloc: Global,
        unread: &mut Unread<'_>,
        tables: &Tables,
    ) -> Result<MethodInfo, AbcRefusal> {
        let param_count = unread.number()?;
        let return_type = MultinameIndex::read(alloc, unread, tables)?;
        let param_types = read_times(alloc, unread, tables, param_count)?;
        let name = StringIndex::read(alloc, unread, tables)?;
        let flags = unread.byte()?;
        Ok(MethodInfo {
            return_type,
            param_types,
            name,
            flags,
            options: read_options(alloc, unread, tables, flags)?,
            param_names: read_param_names(alloc, unread, tables, flags, param_count)?,
        })
    }
}

fn read_options(
    alloc: Global,
    unread: &mut Unread<'_>,
    tables: &Tables,
    flags: u8,
) -> Result<Sequence<OptionDetail>, AbcRefusal>
    ensures { Answers (read_options flags unread.old) result unread.new }
{
    if flags & MethodInfo::HAS_OPTIONAL == 0 {
        return Ok(Sequence::new(alloc));
    }
    read_counted(alloc, unread, tables)
}

fn read_param_names(
    alloc: Global,
    unread: &mut Unread<'_>,
    tables: &Tables,
    flags: u8,
    count: u32,
) -> Result<Sequence<StringIndex>, AbcRefusal>
    ensures { Answers (read_param_names tables.now flags count unread.old) result unread.new }
{
    if flags & MethodInfo::HAS_PARAM_NAMES == 0 {
        return Ok(Sequence::new(alloc));
    }
    read_times(alloc, unread, tables, count)
}

impl Readable for OptionDetail {
    ghost reading = { λ tables. read_option };

    #[tactic(auto, unfolding(crate::specs::Reading::read_option))]
    fn read(
        _alloc: Global,
        unread: &mut Unread<'_>,
        _tables: &Tables,
    ) -> Result<OptionDetail, AbcRefusal> {
        Ok(OptionDetail {
            value: unread.number()?,
            kind: unread.byte()?,
        })
    }
}

impl Readable for MetadataInfo {
    ghost reading = { read_metadata };

    #[tactic(auto, unfolding(crate::specs::Reading::read_metadata))]
    fn read(
        alloc: Global,
        unread: &mut Unread<'_>,
        tables: &Tables,
    ) -> Result<MetadataInfo, AbcRefusal> {
        Ok(MetadataInfo {
            name: StringIndex::read(alloc, unread, tables)?,
            items: read_counted(alloc, unread, tables)?,
        })
    }
}

impl Readable for ItemInfo {
    ghost reading = { λ tables. read_item };

    #[tactic(auto, unfolding(crate::specs::Reading::read_item))]
    fn read(
        _alloc: Global,
        unread: &mut Unread<'_>,
        _tables: &Tables,
    ) -> Result<ItemInfo, AbcRefusal> {
        Ok(ItemInfo {
            key: StringIndex::new(unread.number()?),
            value: StringIndex::new(unread.number()?),
        })
    }
}

impl Readable for MethodBody {
    ghost reading = { read_body };

    #[tactic(auto, unfolding(crate::specs::Reading::read_body))]
    fn read(
        alloc: Global,
        unread: &mut Unread<'_>,
        tables: &Tables,
    ) -> Result<MethodBody, AbcRefusal> {
        Ok(MethodBody {
            method: MethodIndex::read(alloc, unread, tables)?,
            max_stack: unread.number()?,
            local_count: unread.number()?,
            init_scope_depth: unread.number()?,
            max_scope_depth: unread.number()?,
            code: read_code(alloc, unread)?,
            exceptions: read_counted(alloc, unread, tables)?,
            traits: read_counted(alloc, unread, tables)?,
        })
    }
}

#[tactic(auto, unfolding(crate::specs::Reading::read_code))]
fn read_code(alloc: Global, unread: &mut Unread<'_>) -> Result<Bytes, AbcRefusal>
    ensures { Answers (read_code unread.old) result unread.new }
{
    let size = unread.number()?;
    let mut code = Bytes::new(alloc);
    code.extend(unread.piece(size as usize)?)?;
    Ok(code)
}

impl Readable for ExceptionInfo {
    ghost reading = { λ tables. read_exception };

    #[tactic(auto, unfolding(crate::specs::Reading::read_exception))]
    fn read(
        _alloc: Global,
        unread: &mut Unread<'_>,
        _tables: &Tables,
    ) -> Result<ExceptionInfo, AbcRefusal> {
        Ok(ExceptionInfo {
            from: unread.number()?,
            to: unread.number()?,
            target: unread.number()?,
            exc_type: MultinameIndex::new(unread.number()?),
            var_name: MultinameIndex::new(unread.number()?),
        })
    }
}
