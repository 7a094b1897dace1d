// Files of toolchains.

use crate::rows::{add, files, is_wanted, part, set, value};
use gn_ninja::append_toolchain;
use gn_paths::{Text, Texts};
use gn_writing::Tool;
use std::alloc::{AllocError, Global};
use std::test::Fail;

// Of a tool stand its rule, command, depfile, depsformat, description, pool, restat, rspfile and rspfile_content.
const TOOLCHAINS: &str = files! {
    { tools: "host_cc→cc ${defines} -c ${in} -o ${out} ${label_no_toolchain}→${out}.d→gcc→→→→${out}.rsp→${in}¶host_stamp→touch ${out}", files: "host/obj/gen.d/t7.ninja", } =>
"rule host_cc
  command = cc ${defines} -c ${in} -o ${out} ${label_no_toolchain}
  depfile = ${out}.d
  deps = gcc
  rspfile = ${out}.rsp
  rspfile_content = ${in}

rule host_stamp
  command = touch ${out}

subninja host/obj/gen.d/t7.ninja
";
    { tools: "cxx→c++ ${in}→${out}.d→gcc→cost $$5 ${label}→_2f_2fbuild_3ap1→1→${out}.rsp→${in}", } =>
"rule cxx
  command = c++ ${in}
  depfile = ${out}.d
  deps = gcc
  description = cost $$5 ${label}
  pool = _2f_2fbuild_3ap1
  restat = 1
  rspfile = ${out}.rsp
  rspfile_content = ${in}
";
    { tools: "stamp→touch ${out}", files: "obj/a b.ninja|obj/c.ninja", } =>
"rule stamp
  command = touch ${out}

subninja obj/a$ b.ninja
subninja obj/c.ninja
";
};

fn no_tool(alloc: Global) -> Tool {
    Tool {
        rule: Text::new(alloc),
        command: Text::new(alloc),
        depfile: Text::new(alloc),
        depsformat: Text::new(alloc),
        description: Text::new(alloc),
        pool: Text::new(alloc),
        restat: Text::new(alloc),
        rspfile: Text::new(alloc),
        rspfile_content: Text::new(alloc),
    }
}

fn fill_tool(tool: &mut Tool, record: &str) -> Result<(), AllocError> {
    set(&mut tool.rule, part(record, 0))?;
    set(&mut tool.command, part(record, 1))?;
    set(&mut tool.depfile, part(record, 2))?;
    set(&mut tool.depsformat, part(record, 3))?;
    set(&mut tool.description, part(record, 4))?;
    set(&mut tool.pool, part(record, 5))?;
    set(&mut tool.restat, part(record, 6))?;
    set(&mut tool.rspfile, part(record, 7))?;
    set(&mut tool.rspfile_content, part(record, 8))
}

fn tool(alloc: Global, record: &str) -> Result<Tool, AllocError> {
    let mut tool = no_tool(alloc);
    fill_tool(&mut tool, record)?;
    Ok(tool)
}

fn put_tool(alloc: Global, tools: &mut Vec<Tool>, record: &str) -> Result<(), AllocError> {
    tools.push(tool(alloc, record)?)?;
    Ok(())
}

fn tools(alloc: Global, row: &str) -> Result<Vec<Tool>, AllocError> {
    let mut tools = Vec::new(alloc);
    for record in value(row, "tools").split_terminator('¶') {
        put_tool(alloc, &mut tools, record)?;
    }
    Ok(tools)
}

fn is_file_of(alloc: Global, tools: &[Tool], files: &Texts, row: &str) -> Result<bool, AllocError> {
    let mut text = Vec::new(alloc);
    append_toolchain(alloc, &mut text, tools, files)?;
    Ok(is_wanted(text.as_slice(), row))
}

fn is_written(alloc: Global, row: &str) -> Result<bool, AllocError> {
    let mut files = Texts::new(alloc);
    add(alloc, &mut files, value(row, "files"))?;
    let tools = tools(alloc, row)?;
    is_file_of(alloc, tools.as_slice(), &files, row)
}

#[test]
fn files_of_toolchains_are_written(rt: HostRuntime) -> Result<(), Fail> {
    for row in TOOLCHAINS.split_terminator('\x1e') {
        assert!(rt; is_written(rt.alloc(), row)?, "at {row}");
    }
    Ok(())
}
