// Methods, metadata and method bodies. AVM2 Overview, chapter 4.

ghost use Rattle.std.specs.Prelude.{◌≡◌, ◌++◌, OnOk};
ghost use Rattle.std.specs.List.{flat_map};
ghost use Rattle.abc_format.specs.Numbers.{u30_bytes};
ghost use Rattle.abc_writer.specs.Spelling.{body_bytes, counted, exception_bytes, item_bytes, metadata_bytes, method_bytes, option_bytes, options_bytes, param_names_bytes};

use crate::writing::lists::{Written, put_all, put_counted};
use abc_format::{
    ExceptionInfo, ItemInfo, MetadataInfo, MethodBody, MethodInfo, OptionDetail, put_length,
};
use flex_base::{Bytes, NoMemory};

impl Written for MethodInfo {
    ghost spelling = { method_bytes };

    fn put(&self, bytes: &mut Bytes) -> Result<(), NoMemory> {
        put_length(bytes, self.param_types.len() as u64)?;
        self.return_type.put(bytes)?;
        put_all(bytes, self.param_types.as_slice())?;
        self.name.put(bytes)?;
        bytes.push(self.flags)?;
        put_options(bytes, self)?;
        put_param_names(bytes, self)
    }
}

fn put_options(bytes: &mut Bytes, method: &MethodInfo) -> Result<(), NoMemory>
    ensures { OnOk result (bytes.new ≡ bytes.old ++ options_bytes method.now) }
{
    if method.flags & MethodInfo::HAS_OPTIONAL == 0 {
        return Ok(());
    }
    put_counted(bytes, method.options.as_slice())
}

fn put_param_names(bytes: &mut Bytes, method: &MethodInfo) -> Result<(), NoMemory>
    ensures { OnOk result (bytes.new ≡ bytes.old ++ param_names_bytes method.now) }
{
    if method.flags & MethodInfo::HAS_PARAM_NAMES == 0 {
        return Ok(());
    }
    put_all(bytes, method.param_names.as_slice())
}

impl Written for OptionDetail {
    ghost spelling = { option_bytes };

    fn put(&self, bytes: &mut Bytes) -> Result<(), NoMemory> {
        self.value.put(bytes)?;
        bytes.push(self.kind)
    }
}

impl Written for MetadataInfo {
    ghost spelling = { metadata_bytes };

    fn put(&self, bytes: &mut Bytes) -> Result<(), NoMemory> {
        self.name.put(bytes)?;
        put_counted(bytes, self.items.as_slice())
    }
}

impl Written for ItemInfo {
    ghost spelling = { item_bytes };

    fn put(&self, bytes: &mut Bytes) -> Result<(), NoMemory> {
        self.key.put(bytes)?;
        self.value.put(bytes)
    }
}

impl Written for MethodBody {
    ghost spelling = { body_bytes };

    fn put(&self, bytes: &mut Bytes) -> Result<(), NoMemory> {
        self.method.put(bytes)?;
        self.max_stack.put(bytes)?;
        self.local_count.put(bytes)?;
        self.init_scope_depth.put(bytes)?;
        self.max_scope_depth.put(bytes)?;
        put_length(bytes, self.code.len() as u64)?;
        bytes.extend(self.code.as_slice())?;
        put_counted(bytes, self.exceptions.as_slice())?;
        put_counted(bytes, self.traits.as_slice())
    }
}

impl Written for ExceptionInfo {
    ghost spelling = { exception_bytes };

    fn put(&self, bytes: &mut Bytes) -> Result<(), NoMemory> {
        self.from.put(bytes)?;
        self.to.put(bytes)?;
        self.target.put(bytes)?;
        self.exc_type.put(bytes)?;
        self.var_name.put(bytes)
    }
}
